//! Who gets a pointer, and what each window is sent for it: definitions, with nearly no code.
//!
//! Two windows stand side by side, 1 on the left and 2 on the right. A finger, pointer 0, is down on the left one, so
//! window 1 holds the pair (device 1, pointer 0). Now a second finger goes down on the right one. The touched window
//! is 2, no holder prevents splitting, so 2 is chosen: the step gives pointer 1 to window 2 and takes nothing. Window
//! 2 held nothing and is sent `DOWN 1@700,400`; window 1 holds what it held and is sent `MOVE 0@100,200`. If window 1
//! had the flag PREVENT_SPLITTING, it would be chosen as the earliest holder and sent `POINTER_DOWN:1 0@100,200
//! 1@700,400`, and window 2 would be sent nothing.
//!
//! The definitions stand in specs/, each under one sentence. Read them in this order:
//!
//! - `Pairs`, `Taking`, `Marks`: who holds what. A step leaves a mark: which pairs of (window, device, id) it gives,
//!   and what it takes. The marks, newest first, determine who holds what (`held`), since when (`since`) and who is
//!   pilfering. These three know nothing of windows or motions.
//! - `Places`, `Laws`: the same as facts about indices. A window holds a pointer if some step gave it and no later
//!   step took it. The functions of [`laws`] prove that both say the same.
//! - `Scene`: the state before a step as functions, in display pixels, and what a step can be. It contains no history
//!   and no number that orders windows: it only says which of two began first. A motion reaches the windows on the
//!   display of its device alone, and a window that a snapshot moves to another display does not stay.
//! - `Choice`, `Slip`, `Given`: which window is chosen for a pointer that goes down and by which row of the table
//!   ([`Choice`]), which windows get it (`takers`), when a pointer slips from one window to another, and hence what a
//!   step gives and takes (`given`, `taken`, both together `mark`).
//! - `Outgoing`: what a window is sent at a step for one device (`outgoing`), and for all devices (`sent_all`). If a
//!   device itself cancels a pointer, such as a palm's, its windows are sent a cancelled up of it.
//! - `Cover`: what lies over a window where it is given a pointer: a window of another owner obscures it there, or only
//!   overlaps it. `covered` of `Marks` adds this up while the window holds something, and `under` of `Cover` says with
//!   which flags it is then sent a motion.
//! - `Fits`: what a scene and a step must satisfy so that what is sent fits what was sent before. That it does is
//!   proved too.
//!
//! The rules follow the idea of Android's input dispatcher. Which window is chosen for a later finger, what the
//! earliest holder is, when touches outside are sent and when a pointer slips are this project's own choices, and
//! claim nothing of any release.
#![tactic(auto)]

mod choice;
pub mod laws;

pub use choice::{Choice, Row};
