// Tags.
ghost use Rattle.std.specs.Prelude.{◌≡◌, true};
ghost use Rattle.vrt_markup.specs.Items.{is_name};

/// A tag; the attributes stand in front of the last text.
#[derive(Clone, Copy)]
pub struct Tag<'a> {
    pub name: &'a [u8],
    pub attributes: &'a [u8],
    pub empty: bool,
    pub ghost named: { is_name name.now ≡ true },
}
