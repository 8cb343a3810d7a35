// Fields of a file: a tag, the length of the body in two bytes, and the body.
#![tactic(auto)]

ghost use Rattle.std.specs.Prelude.{◌≡◌};
ghost use Rattle.fields.specs.Field.{number16, check_field};

use refusal::Refusal;

// Every field: 1 where it runs past the end, 2 where another tag must stand there, 3 where its length is not least to most. At an
// offset behind the file every field runs past the end.
#[tactic(auto, unfolding(crate::specs::Field::check_field, crate::specs::Field::field_end, crate::specs::Field::body_length, request::specs::Check::then, request::specs::Check::must))]
pub fn check_field(
    file: &[u8],
    at: usize,
    tag: u8,
    least: usize,
    most: usize,
) -> Result<(), Refusal>
    ensures { result ≡ check_field file.now at tag least most }
{
    if file.len() < at || file.len() - at < 3 {
        return Err(Refusal::PastEnd(at));
    }
    let body = usize::from(number_in(file, at + 1));
    if file.len() - at - 3 < body {
        return Err(Refusal::PastEnd(at));
    }
    if file[at] != tag {
        return Err(Refusal::WrongTag(at));
    }
    if !(least..=most).contains(&body) {
        return Err(Refusal::WrongLength(at));
    }
    Ok(())
}

// Two bytes, the high one first; a byte behind the end counts as 0.
#[tactic(auto, unfolding(crate::specs::Field::number16))]
pub fn number_in(file: &[u8], at: usize) -> u16
    ensures { result ≡ number16 file.now at }
{
    if file.len() <= at {
        return 0;
    }
    let low = file.get(at + 1).copied().unwrap_or(0);
    u16::from_be_bytes([file[at], low])
}
