// What is told of the work of a run that isn't quiet.
ghost use Rattle.std.specs.Prelude.{◌≡◌, length};
ghost use Rattle.error_lines.specs.Progress.{progress, progress_len, progress_end};

/// What is told while the work goes on.
pub fn progress_text() -> &'static [u8]
    ensures text { result.now ≡ progress }
    ensures length { length result.now ≡ progress_len }
{
    b"0...10...20...30...40...50...60...70...80...90..."
}

/// What is told when all is done.
pub fn progress_end_text() -> &'static [u8]
    ensures text { result.now ≡ progress_end }
{
    b"100 - done.\n"
}
