// What single characters and names do to a block (parts of `add_text`, and `add_element`, of text_renderer.rs): a character of a word, a blank that
// is kept or collapses, LF and tab, and a name.
//
// The functions are for the crates above, which show what they require: room in the block's buffers and in its numbers.
#![tactic(auto)]

pub mod chars;
pub mod stops;
