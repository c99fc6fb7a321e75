//! The common part of all texts. A text is read line by line, bytes are cut into lines and lines
//! into fields, numbers are decimal and bytes hex digits. Forms of lines are tables of pieces.
//! Short lines are built from their end, without a table. A text of such forms is a `Grammar`. The
//! tests of its lines, their order, and the laws of all texts are here, once for all. The values
//! read are kept in lists.
//!
//! The crate uses `ivs_base`, `arrayvec`, `hex`, `itoa` and `memchr`. Its contracts promise for
//! every table of forms that reading a form's fields and writing them are one relation, so each
//! value has one spelling. They promise for every kind of line that the first faulty line is
//! reported.
#![tactic(auto)]

mod cuts;
mod forms;
mod grammar;
mod hex_digits;
mod line_tail;
mod list;
mod macros;
mod numbers;
mod reading;
mod short_lines;
mod writing;

pub use cuts::cut;
pub use forms::{
    ANY, FieldKind, U32, fields, flag_at, has_form, hex_field, is_printable, number_at, number_in,
    numbers_in,
};
pub use grammar::{Grammar, Test, take_line};
pub use hex_digits::read_hex;
pub use line_tail::LineTail;
pub use list::List;
pub use numbers::number;
pub use reading::{LineFault, TakeLines, TextFault, read_text};
pub use short_lines::{put_four, put_named, put_one, put_three, put_two, put_with_bytes};
pub use writing::{HasRow, put_flags, put_line, put_rows};
