//! Key layouts: the Android key code of each scan code of a device.
//!
//! A layout is a text in the form of Android's `.kl` files. The text
//!
//! ```text
//! # a keyboard
//! key 42    SHIFT_LEFT
//! key 0x1e  A            VIRTUAL
//! led 0x00  NUM_LOCK
//! ```
//!
//! gives scan code 42 the key code 59 and scan code 30 the key code 29, and every other scan code 0. Flags after a
//! name and lines about lights, axes and sensors are ignored, since nothing here needs them.
#![tactic(auto)]

mod error;
pub mod key_code;
mod key_name;
mod layout;
mod line;
mod text;

pub use error::LayoutError;
pub use layout::Layout;

/// Each name that has a key code here, with that code.
pub(crate) const NAMES: [(&str, u16); 54] = [
    ("UNKNOWN", key_code::UNKNOWN),
    ("HOME", key_code::HOME),
    ("BACK", key_code::BACK),
    ("0", 7),
    ("1", 8),
    ("2", 9),
    ("3", 10),
    ("4", 11),
    ("5", 12),
    ("6", 13),
    ("7", 14),
    ("8", 15),
    ("9", 16),
    ("VOLUME_UP", key_code::VOLUME_UP),
    ("VOLUME_DOWN", key_code::VOLUME_DOWN),
    ("POWER", key_code::POWER),
    ("A", 29),
    ("B", 30),
    ("C", 31),
    ("D", 32),
    ("E", 33),
    ("F", 34),
    ("G", 35),
    ("H", 36),
    ("I", 37),
    ("J", 38),
    ("K", 39),
    ("L", 40),
    ("M", 41),
    ("N", 42),
    ("O", 43),
    ("P", 44),
    ("Q", 45),
    ("R", 46),
    ("S", 47),
    ("T", 48),
    ("U", 49),
    ("V", 50),
    ("W", 51),
    ("X", 52),
    ("Y", 53),
    ("Z", 54),
    ("ALT_LEFT", key_code::ALT_LEFT),
    ("ALT_RIGHT", key_code::ALT_RIGHT),
    ("SHIFT_LEFT", key_code::SHIFT_LEFT),
    ("SHIFT_RIGHT", key_code::SHIFT_RIGHT),
    ("TAB", key_code::TAB),
    ("SPACE", key_code::SPACE),
    ("ENTER", key_code::ENTER),
    ("DEL", key_code::DEL),
    ("MENU", key_code::MENU),
    ("ESCAPE", key_code::ESCAPE),
    ("CTRL_LEFT", key_code::CTRL_LEFT),
    ("CTRL_RIGHT", key_code::CTRL_RIGHT),
];
