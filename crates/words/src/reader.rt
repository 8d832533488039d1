// A reader over the caller's text, moved on word by word.
ghost use Rattle.std.specs.Prelude.{◌≡◌, ◌≤◌, length};

pub mod moves;

#[derive(Drop)]
pub struct Reader<'t> {
    text: &'t [u8],
    place: usize,
    ghost within: { place ≤ length text.now },
}
