//! The bytes that keys are made of beside those of values.

/// The first byte of an item's key, by its kind. Each is above the byte that ends a list.
pub(crate) const MISSING: u8 = 2;

pub(crate) const NULL: u8 = 3;

pub(crate) const INTEGER: u8 = 4;

pub(crate) const BOOLEAN: u8 = 5;

pub(crate) const STRING: u8 = 6;

pub(crate) const BYTES: u8 = 7;

pub(crate) const ARRAY: u8 = 8;

pub(crate) const OBJECT: u8 = 9;

/// Behind the items of an array, and behind the names and values of an object.
pub(crate) const ARRAY_END: u8 = 0;

pub(crate) const OBJECT_END: u8 = 0;

/// Behind a byte 00 of a string or bytes.
pub(crate) const ESCAPE: u8 = 255;

/// Behind the byte 00 that ends a string or bytes.
pub(crate) const STRING_END: u8 = 1;

/// Behind a key, above all keys that begin with it.
pub(crate) const LAST: u8 = 255;
