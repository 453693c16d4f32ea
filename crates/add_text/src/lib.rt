// Text added to a block (`add_text` of text_renderer.rs), run by run of plain characters and one character after each: a character of a
// word, a blank that is kept or collapses, LF and tab.
//
// The functions are for the crates above, which show what they require: room in the block's buffers and in
// its numbers.
#![tactic(auto)]

mod runs;
pub mod text;
mod walk;
