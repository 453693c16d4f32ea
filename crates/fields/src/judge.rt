// A field judged by itself: its letter, its lengths, its segments and its text (refusals 1 and 3).
ghost use Rattle.std.specs.Prelude.{◌≡◌};
ghost use Rattle.fields.specs.Field.{whole, all};
ghost use Rattle.fields.specs.Refusal.{number_of};
ghost use Rattle.fields.specs.Refusals.{width_refusal};
ghost use Rattle.fields.specs.Sheet.{is_segment};
ghost use Rattle.fields.specs.SpanRefusals.{line_refusal};
ghost use Rattle.fields.specs.Walk.{field_refusal, piece_refusal, prefix_refusal, name_refusal};

use crate::refusal::Refusal;
use crate::text::check_text;

// The last mode of a text: Normal, Pre and PreWrap are 0, 1 and 2.
pub const LAST_MODE: u8 = 2;

// The content of a T field: a mode, at most 2, two annotations and text.
fn check_run(content: &[u8]) -> Result<(), Refusal>
    ensures { number_of result ≡ field_refusal (whole 0x54 content.now) }
{
    match content {
        [mode, _, _, text @ ..] if *mode <= LAST_MODE => check_text(text, true),
        _ => Err(Refusal::CrookedRecord),
    }
}

// A field of a job: a T field, or an F field, which is a name.
pub fn check_job_field(letter: u8, content: &[u8]) -> Result<(), Refusal>
    ensures { number_of result ≡ field_refusal (whole letter content.now) }
{
    match letter {
        b'F' => check_text(content, false),
        b'T' => check_run(content),
        _ => Err(Refusal::CrookedRecord),
    }
}

// The content of an S field: an annotation and at least one byte of text.
fn check_string(content: &[u8]) -> Result<(), Refusal>
    ensures { number_of result ≡ piece_refusal (whole 0x53 content.now) }
{
    match content {
        [_, text @ ..] if !text.is_empty() => check_text(text, false),
        _ => Err(Refusal::CrookedRecord),
    }
}

// A piece of a line: an S field, or an F field, which is a name.
pub fn check_piece(letter: u8, content: &[u8]) -> Result<(), Refusal>
    ensures { number_of result ≡ piece_refusal (whole letter content.now) }
{
    match letter {
        b'F' => check_text(content, false),
        b'S' => check_string(content),
        _ => Err(Refusal::CrookedRecord),
    }
}

// Whether each byte is a segment, 0 to 11.
pub fn all_segments(segments: &[u8]) -> bool
    ensures { result ≡ all is_segment segments.now }
{
    for segment in segments {
        if 11 < *segment {
            return false;
        }
    }
    true
}

// The content of a B field: an annotation and segments.
pub fn check_border(content: &[u8]) -> Result<(), Refusal>
    ensures { number_of result ≡ line_refusal (whole 0x42 content.now) }
{
    match content {
        [_, segments @ ..] if all_segments(segments) => Ok(()),
        _ => Err(Refusal::CrookedRecord),
    }
}

// A P field is text, perhaps empty.
pub fn check_prefix(letter: u8, content: &[u8]) -> Result<(), Refusal>
    ensures { number_of result ≡ prefix_refusal (whole letter content.now) }
{
    if letter != b'P' {
        return Err(Refusal::CrookedRecord);
    }
    check_text(content, false)
}

// A width, of a block or of a sheet, is not 0 (refusal 2).
pub fn check_width(width: u8) -> Result<(), Refusal>
    ensures { number_of result ≡ width_refusal width }
{
    if width == 0 {
        return Err(Refusal::NoWidth);
    }
    Ok(())
}

// An F field after a sheet's last line is a name, perhaps empty.
pub fn check_name(letter: u8, content: &[u8]) -> Result<(), Refusal>
    ensures { number_of result ≡ name_refusal (whole letter content.now) }
{
    if letter != b'F' {
        return Err(Refusal::CrookedRecord);
    }
    check_text(content, false)
}
