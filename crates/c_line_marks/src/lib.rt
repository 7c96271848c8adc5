//! What line markers presume of the places of a text.
//!
//! A marker, as `# 12 "a.h" 1`, says that the line after it is line 12 of the file `a.h`. Each leaves a mark: its physical
//! line, the line that is presumed there, and the file. The last mark at a line or before it tells the presumed line and the
//! presumed file of that line: where line 4 is presumed to be line 12 of `a.h`, and no mark comes after it, line 6 is line 14.
//!
//! A marker that names no file keeps the file of the marker before. A name is kept once, however many markers keep it, and a
//! line is looked up by halves, so a file that is all markers costs no more than it has bytes.
#![tactic(auto)]

mod marks;

pub use marks::LineMarks;
