//! The session file: the displays, the devices, the channels and what is done with windows and focus, and when.
//!
//! A session is a TOML file. The file
//!
//! ```toml
//! [display]
//! width = 1080
//! height = 2400
//!
//! [[device]]
//! kind = "touch"
//! path = "/dev/input/event2"
//! x = [0, 1079]
//! y = [0, 2399]
//!
//! [[channel]]
//! name = "main"
//!
//! [[step]]
//! at_us = 0
//! do = "windows"
//! windows = [ { channel = "main", frame = [0, 0, 1080, 2400] } ]
//! ```
//!
//! is a plan with one touch device of ten slots, channel 1 named `main`, and one step at moment 0 that shows its
//! window over the whole display. `Plan::read` gives the plan of the bytes of a file, or the first refusal with its
//! key, such as `step[1].windows[1].frame`. Keys are read in this order: `display`, `extra_display`, `end_us`,
//! `repeat_us`, `repeat`, all devices, all channels, all steps. For each key, one that has to be there and is not is
//! `Missing`; a value of another kind, or a malformed one, is `Wrong`; a number or a count outside its range is
//! `OutOfRange`; a name that is not known is `UnknownName`. Other keys are not looked at.
//!
//! | key | kind, and its default where it may be absent | range |
//! |---|---|---|
//! | `display.width`, `display.height` | integer | 1 to 16384 pixels |
//! | `display.rotation` | integer, 0 | 0, 90, 180 or 270 degrees |
//! | `extra_display` | array of tables, none; entry k is display k, beside display 0 | at most 3 |
//! | `extra_display[k].width`, `.height`, `.rotation` | as for `display` | as for `display` |
//! | `end_us` | integer, 0 | 0 to 10^18 microseconds |
//! | `repeat_us` | array of two integers, 500000 and 50000: the delays of repeats | 1000 to 600000000 microseconds |
//! | `repeat` | truth value, true; with false no key is repeated | |
//! | `device` | array of tables, none | at most 8 |
//! | `device[k].kind` | text | `touch` or `keys` |
//! | `device[k].path` | text | begins with `/`, has no space or tab, and no earlier device has it |
//! | `device[k].display` (touch) | integer, 0 | 0 to the greatest display |
//! | `device[k].slots` (touch) | integer, 10 | 1 to 16 |
//! | `device[k].x`, `device[k].y` (touch) | array of two integers, the least and the greatest raw position | 32 bits each |
//! | `device[k].layout` (keys) | text, empty | a key layout |
//! | `channel` | array of tables, none | at most 64 |
//! | `channel[k].name` | text | 1 to 64 bytes from `!` to `~`, and no earlier channel has it |
//! | `channel[k].limit_ms` | integer, 5000 | 1 to 600000 milliseconds |
//! | `channel[k].finish_after_us` | integer, 0 | 0 to 10^15 microseconds |
//! | `channel[k].finishes` | truth value, true | |
//! | `step` | array of tables, none | any number |
//! | `step[k].at_us` | integer | 0 to 10^18 microseconds |
//! | `step[k].lane` | integer, 1 | 1 to 8 |
//! | `step[k].do` | text | `windows`, `focus`, `pilfer` or `remove` |
//! | `step[k].windows` (windows) | array of tables, front to back | at most 64 |
//! | `step[k].windows[j].wall` | truth value, false | |
//! | `step[k].windows[j].channel` | text; absent if `wall` is true | the name of a channel that no earlier window of the step has |
//! | `step[k].windows[j].display` | integer, 0 | 0 to the greatest display |
//! | `step[k].windows[j].frame` | array of four integers: left, top, right, bottom | 32 bits each, in order |
//! | `step[k].windows[j].region` | array of such arrays, the frame alone | at most 64 |
//! | `step[k].windows[j].flags` | array of texts, none | names of `WindowFlags` |
//! | `step[k].display` (focus) | integer, 0 | 0 to the greatest display |
//! | `step[k].channel` (focus) | text, no channel | the name of a channel |
//! | `step[k].channel` (pilfer, remove) | text | the name of a channel |
//! | `step[k].device` (pilfer) | integer | 1 to the number of devices |
//!
//! A held key is repeated `repeat_us[0]` after it went down, and `repeat_us[1]` after each repeat. With
//! `repeat = false` no key is repeated, for clients that repeat keys by themselves; `repeat_us` is still read and
//! judged.
//!
//! A window with `wall = true` is of nobody. It has the number of its display's walls in place of a channel, and a
//! channel that it names is `Wrong`. So are its flags if SPY, WATCH_OUTSIDE_TOUCH, SLIPPERY or PREVENT_SPLITTING is
//! among them.
//!
//! An array with an element of another kind is of another kind itself. Numbers of an array that are out of order are
//! `Wrong`, even if they are also out of range.
#![tactic(auto)]

mod channel;
mod device;
mod display;
mod error;
mod flags;
mod key;
mod plan;
mod reading;
mod rectangle;
mod repeat;
mod session;
mod step;
mod trust;
mod window;

pub use error::PlanError;
pub use key::Place;
pub use plan::{Act, ChannelPlan, DeviceKind, DevicePlan, Display, Plan, Step};
