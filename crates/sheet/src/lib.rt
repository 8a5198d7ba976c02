// Sheets: rules and headers as text.
//
// A sheet has at most 8,192 bytes and at most 64 lines, each ended by a line feed. A line of rules has
// six fields parted by commas: two addresses, two ports, a protocol, a decision. An address is `*`, or
// four numbers up to 255 with dots, a slash and a length up to 32. A port is `*`, a number up to 65535,
// or a low and a high end with a dash. A protocol is `*`, a number up to 255, `tcp`, `udp` or `icmp`. The
// decision is all that stands before the line feed, commas included, and goes to the kind as it is. A
// line of headers has the first five fields as numbers alone, without lengths, and its line feed closes
// the last of them.
//
// A number is the longest run of digits, 1 to 5 of them, without a zero before others. A word is the
// longest run of small letters. The marks are `. / - * ,` and the line feed. No token begins with any
// other byte.
//
// The questions, in their order, and the byte that a refusal tells:
// 1. Has the sheet at most 8,192 bytes? Told at byte 8192, line 0.
// Then line by line; there is a line where bytes remain, so an empty sheet is clean.
// 2. Is there a place for the line, and is it among the first 64? At its first byte.
// 3. Has it its line feed? At the sheet's end.
// Then field by field, the tokens of a field one by one with its closing mark:
// 4. Is the token well made? At its first byte, also where just one mark would fit.
// 5. Does it fit the form of the field? At its first byte. An empty field is refused at its comma, and a
//    line that ends early at its line feed, in the field that is open.
// 6. Are the numbers of the field in range, its low end not above its high end, and the bits of an
//    address after its length zero? At the first byte of the field.
// 7. Is the last field a word of the kind? At its first byte.
#![tactic(auto)]

mod addresses;
pub mod headers;
mod lines;
mod reader;
pub mod sheets;
mod tokens;
