//! Key codes of Android by their names, such as KeyEvent's `KEYCODE_HOME`. The code of a digit is 7 more than the
//! digit, and the codes of the letters start at 29 for A.

/// An unknown key, or one without a meaning here.
pub const UNKNOWN: u16 = 0;

pub const HOME: u16 = 3;

pub const BACK: u16 = 4;

pub const VOLUME_UP: u16 = 24;

pub const VOLUME_DOWN: u16 = 25;

pub const POWER: u16 = 26;

pub const ALT_LEFT: u16 = 57;

pub const ALT_RIGHT: u16 = 58;

pub const SHIFT_LEFT: u16 = 59;

pub const SHIFT_RIGHT: u16 = 60;

pub const TAB: u16 = 61;

pub const SPACE: u16 = 62;

pub const ENTER: u16 = 66;

pub const DEL: u16 = 67;

pub const MENU: u16 = 82;

pub const ESCAPE: u16 = 111;

pub const CTRL_LEFT: u16 = 113;

pub const CTRL_RIGHT: u16 = 114;
