// What the reader of an expression goes by: the characters of the text, the parts that are read, and which positions follow one another.
#![tactic(auto)]

pub mod chars; // chars.rt: what stands at a position of the text
pub mod part; // part.rt: a part of the text that was read, and how parts are put together
pub mod links; // links.rt: which positions follow one another; stars
