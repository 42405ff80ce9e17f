//! Where a command ends.
ghost use Rattle.std.specs.Prelude.{◌≡◌, ◌+◌, ◌<◌, ◌≤◌, ◌^◌, IfSome, length};
ghost use Rattle.cif_grammar.specs.Cutting.{command_len, next_depth, semicolon_from};

use byte_io::find_byte;

/// Returns how many bytes stand before the semicolon of the command at the start: the first one, or
/// behind a parenthesis at the start, the first one behind that which closes it.
///
/// # Cost
///
/// A pass over the bytes of the command.
#[tactic(auto, unfolding(crate::specs::Cutting::command_len))]
pub fn command_len(bytes: &[u8]) -> Option<usize>
    ensures value { result ≡ command_len bytes.now }
    ensures within { IfSome result (λ len. len < length bytes.now) }
{
    let (first, behind) = bytes.split_first()?;
    if *first == b'(' {
        comment_len(behind)
    } else {
        plain_len(behind)
    }
}

/// Returns how many bytes stand before the semicolon of the command that begins with another byte than a
/// parenthesis, before these bytes.
#[tactic(auto, using(crate::proofs::CutLemmas::plain_command))]
fn plain_len(behind: &[u8]) -> Option<usize>
    requires { length behind.now + 1 < 2 ^ 64 }
    ensures value { result ≡ semicolon_from 1 0 behind.now }
    ensures within { IfSome result (λ len. len ≤ length behind.now) }
{
    let index = find_byte(behind, b';')?;
    Some(index + 1)
}

/// Returns how many bytes stand before the semicolon of the command that begins with a parenthesis, before
/// these bytes.
#[tactic(auto, unfolding(crate::specs::Cutting::semicolon_from))]
fn comment_len(behind: &[u8]) -> Option<usize>
    requires { length behind.now + 1 < 2 ^ 64 }
    ensures value { result ≡ semicolon_from 1 1 behind.now }
    ensures within { IfSome result (λ len. len ≤ length behind.now) }
{
    let mut depth = 1;
    let mut place = 1;
    let mut rest = behind;
    while let Some((byte, further)) = rest.split_first() {
        if depth == 0 && *byte == b';' {
            return Some(place);
        }
        depth = next_depth(depth, *byte);
        place += 1;
        rest = further;
    }
    None
}

/// Returns the parenthesis depth after `byte`. A closing parenthesis outside all others counts for nothing.
fn next_depth(depth: usize, byte: u8) -> usize
    requires { depth + 1 < 2 ^ 64 }
    ensures value { result ≡ next_depth depth byte }
    ensures bound { result ≤ depth + 1 }
{
    match (depth, byte) {
        (0, _) => 0,
        (_, b'(') => depth + 1,
        (_, b')') => depth - 1,
        _ => depth,
    }
}
