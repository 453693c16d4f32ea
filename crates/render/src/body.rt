// The fields of a job after its W, each added to the block. What a function here requires, its callers in this crate show.
ghost use Rattle.std.specs.Prelude.{◌+◌, ◌≤◌};
ghost use Rattle.fields.specs.Field.{whole, raws};
ghost use Rattle.fields.specs.Job.{field_units, body_units};
ghost use Rattle.fields.specs.List.{whole_of};
ghost use Rattle.flush_word.specs.Keep.{CountsWithinUnits, BuffersLongEnough, BlockStays};
ghost use Rattle.add_text.specs.Walks.{TextSmall};
ghost use Rattle.render.specs.Render.{AddsField, AddsFields};

use add_chars::chars::add_element;
use add_text::text::{Run, add_text};
use fields::list::Fields;
use fields::raw::Field;
use flush_word::state::WrappedBlock;
use flush_word::white_space::WhiteSpace;
use hard_wrap::error::TooNarrow;

// The text of a T field, whose content is a mode, two annotations and the text; of an unknown mode nothing is added.
fn add_run(block: &mut WrappedBlock<'_>, content: &[u8]) -> Result<(), TooNarrow>
    requires counts_within_units { CountsWithinUnits block.old × BuffersLongEnough block.old }
    requires content_bound { block.old.used + field_units (whole 0x54 content.now) ≤ 4096 }
    ensures stays { BlockStays block.old block.new }
    ensures text_small { TextSmall (block.old.used + field_units (whole 0x54 content.now)) result block.new }
    ensures adds_field { AddsField block.old (whole 0x54 content.now) result block.new }
{
    let [mode, main, wrap, text @ ..] = content else {
        return Ok(());
    };
    let Ok(mode) = WhiteSpace::try_from(*mode) else {
        return Ok(());
    };
    let run = Run {
        mode,
        main: u32::from(*main),
        wrap: u32::from(*wrap),
    };
    add_text(block, run, text)
}

// A T field's text or an F field's name; what is neither changes nothing.
fn add_field(block: &mut WrappedBlock<'_>, field: Field<'_>) -> Result<(), TooNarrow>
    requires counts_within_units { CountsWithinUnits block.old × BuffersLongEnough block.old }
    requires content_bound { block.old.used + field_units (whole_of field) ≤ 4096 }
    ensures stays { BlockStays block.old block.new }
    ensures text_small { TextSmall (block.old.used + field_units (whole_of field.entry)) result block.new }
    ensures adds_field { AddsField block.old (whole_of field.entry) result block.new }
{
    match field.letter {
        b'F' => add_element(block, field.content),
        b'T' => add_run(block, field.content)?,
        _ => {}
    }
    Ok(())
}

// All fields, one after the other.
pub fn add_fields(block: &mut WrappedBlock<'_>, body: &[u8]) -> Result<(), TooNarrow>
    requires counts_within_units { CountsWithinUnits block.old × BuffersLongEnough block.old }
    requires body_bound { block.old.used + body_units (raws body.now) ≤ 4096 }
    ensures stays { BlockStays block.old block.new }
    ensures text_small { TextSmall (block.old.used + body_units (raws body.now)) result block.new }
    ensures adds_fields { AddsFields block.old body.now result block.new }
{
    for field in Fields::new(body) {
        if let Ok(field) = field {
            add_field(block, field)?;
        }
    }
    Ok(())
}
