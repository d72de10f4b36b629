//! Grammars of bytes: values read from the front of bytes and put at their end, a unit at a time.
#![tactic(auto)]

mod fault;
mod numbers;
mod ranges;
mod stop;
mod unit;
mod whole;
mod writing;

pub use fault::CodecFault;
pub use numbers::{i16_at, i32_at, i128_at, u8_at, u16_at, u32_at};
pub use ranges::{number_at, signed_at, tag_at, u8_in, u16_in, u32_in};
pub use stop::Stop;
pub use unit::{Units, all_known, put_all, units_at};
pub use whole::whole_of;
pub use writing::{put_i16, put_i32, put_i128, put_u8, put_u16, put_u32};

#[cfg(test)]
mod tests;
