// What holds of every run.
ghost use Rattle.std.specs.Prelude.{◌≡◌, ℕ, List, Ok};
ghost use Rattle.outside.specs.Outside.{Files};
ghost use Rattle.command_words.specs.declared.command.Command.{Command};
ghost use Rattle.command_words.specs.Words.{words_of};
ghost use Rattle.gdal_cli.specs.Work.{run_of};

/// How many blocks are held changes no run: two command lines whose commands have the same job, and
/// check the same, mean the same run over all files and every input.
#[tactic(auto, using(crate::proofs::Judging::same_runs))]
pub fn blocks_change_nothing()
    ensures same { (a b : List (List ℕ)) (c d : Command) (m : Files) (input : List ℕ) → words_of a ≡ Ok c →
        words_of b ≡ Ok d → c.job ≡ d.job → c.verify ≡ d.verify → run_of a m input ≡ run_of b m input }
{}

/// How many workers read changes no run: two command lines whose commands differ in the number of workers alone mean
/// the same run over all files and every input.
pub fn workers_change_nothing()
    ensures same { (a b : List (List ℕ)) (c : Command) (n : ℕ) (m : Files) (input : List ℕ) → words_of a ≡ Ok c →
        words_of b ≡ Ok (record c { workers = n }) → run_of a m input ≡ run_of b m input }
{}
