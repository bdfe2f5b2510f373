//! How an input is parted into a list and commands.
ghost use Rattle.std.specs.Prelude.{◌≡◌, ◌+◌, true, take, drop};
ghost use Rattle.dialogue.specs.Parts.{command_part, first_line, first_newline, after_line, list_part, parting};

/// The place of the first newline, or the length where there is none.
// Stays: this and `empty_line` give the length for none, so that the parts before and after a place are both there; an Option would be one case more.
fn newline(bytes: &[u8]) -> usize
    ensures { result ≡ first_newline bytes.now }
{
    bytes
        .iter()
        .position(|&b| b == b'\n')
        .unwrap_or(bytes.len())
}

/// The place of the first empty line, or the length where there is none.
fn empty_line(input: &[u8]) -> usize
    ensures { result ≡ parting true input.now }
{
    if input.is_empty() || input.starts_with(b"\n") {
        return 0;
    }
    // `&` asks both without a branch between: a text of any length is gone through here.
    input
        .iter()
        .zip(&input[1..])
        .position(|(a, b)| (*a == b'\n') & (*b == b'\n'))
        .map_or(input.len(), |before| before + 1)
}

/// The first `i` bytes, and what stands after the byte at `i`.
fn around(bytes: &[u8], i: usize) -> (&[u8], &[u8])
    ensures before { result.0.now ≡ take i bytes.now }
    ensures after { result.1.now ≡ drop (i + 1) bytes.now }
{
    if i < bytes.len() {
        (&bytes[..i], &bytes[i + 1..])
    } else {
        (bytes, &[])
    }
}

/// The list of an input and its commands, parted by the first empty line.
pub fn list_and_commands(input: &[u8]) -> (&[u8], &[u8])
    ensures list { result.0.now ≡ list_part input.now }
    ensures commands { result.1.now ≡ command_part input.now }
{
    around(input, empty_line(input))
}

/// The first line of a text without its newline, and what follows it.
pub fn line_and_rest(bytes: &[u8]) -> (&[u8], &[u8])
    ensures line { result.0.now ≡ first_line bytes.now }
    ensures rest { result.1.now ≡ after_line bytes.now }
{
    around(bytes, newline(bytes))
}
