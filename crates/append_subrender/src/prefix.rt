// The prefix that a line of a guest gets.
ghost use Rattle.std.specs.Prelude.{◌*◌, ◌≤◌, ◌<◌, length};

// The prefix of a line and its columns.
#[derive(Clone, Copy)]
pub struct Prefix<'a> {
    pub text: &'a [u8],
    pub cols: usize,
    ghost short: { length text.now < 65536 },
    ghost narrow: { cols ≤ 2 * length text.now },
}
