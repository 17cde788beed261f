//! One window, replaced where it is.
ghost use Rattle.std.specs.Prelude.{◌≡◌, ℕ, true, List, Ok, OnOk, OnErr};
ghost use Rattle.std.specs.List.{position};
ghost use Rattle.dispatch_calls.specs.declared.call.Call.TheVariants.{Windows};
ghost use Rattle.dispatch_history.specs.Effect.{Effect};
ghost use Rattle.dispatch_history.specs.Legal.{answered};
ghost use Rattle.window_snapshot.specs.declared.window.Window.{Window as WindowView};
ghost use Rattle.window_snapshot.specs.Mask.{is_channel};
ghost use Rattle.window_snapshot.specs.Named.{place_of, window_of};
ghost use Rattle.window_snapshot.specs.Snapshot.{snapshot_of};
ghost use Rattle.window_snapshot.specs.WindowList.{IsSnapshot};
ghost use Rattle.live_input.specs.Answers.{SameClients};
ghost use Rattle.live_input.specs.Replacing.{ChannelsLaw, OthersLaw, NewLaw, WindowGoes, replaced};
ghost use Rattle.live_input.specs.Standing.{AreOfHeld, LiveIs};
ghost use Rattle.live_input.specs.State.{latest};

use crate::client::{Client, is_open};
use crate::live::Live;
use crate::refused::WindowRefused;
use crate::windows::WindowInfo;
use input_types::Moment;
use std::alloc::{AllocError, Global};
use std::mem::replace;
use window_snapshot::{Snapshot, Window};

impl Live {
    /// Replaces the window of a client. The new one is where the old one was, front to back, and all other windows
    /// stay. If it is refused, nothing changes.
    pub fn window(
        &mut self,
        now: Moment,
        client: Client,
        info: WindowInfo,
    ) -> Result<(), WindowRefused>
        ensures after { (ds : List ℕ) (es : List Effect) → LiveIs ds es self.old
            → WindowGoes ds (latest now self.old) client info es result self.old self.new }
        ensures clients { SameClients self.old self.new }
        ensures named { self.new.reported ≡ self.old.reported }
    {
        if !is_open(&self.seats, client) {
            return Err(WindowRefused::NotOpen);
        }
        let now = now.later(self.clock);
        let Some(was) = put(
            self.alloc,
            &mut self.windows,
            info.into_window(client.channel),
        ) else {
            return Err(WindowRefused::NotShown);
        };
        match self.show_kept(now) {
            Ok(()) => {
                self.clock = now;
                Ok(())
            }
            Err(_) => {
                put(self.alloc, &mut self.windows, was);
                Err(WindowRefused::Memory)
            }
        }
    }

    /// Shows the windows that are kept, all of open clients. If memory runs out, nothing changes.
    fn show_kept(&mut self, now: Moment) -> Result<(), AllocError>
        ensures after { (ds : List ℕ) (es : List Effect) (before : List WindowView)
            → LiveIs ds es (record self.old { windows = before }) → AreOfHeld self.old.windows self.old.seats
            → OnOk result (LiveIs ds (answered ds (Windows now self.old.windows) es) self.new) }
        ensures rest { self.new ≡ record self.old { dispatcher = self.new.dispatcher; steps = self.new.steps } }
        ensures err { OnErr result (self.new ≡ self.old) }
    {
        match self.dispatcher.show(now, &self.windows) {
            Ok(_) => {
                self.steps.go_all(&self.dispatcher);
                Ok(())
            }
            Err(error) => Err(error),
        }
    }
}

/// Puts a client's window in place of the one of its channel, and returns that one. If there is none, nothing changes.
fn put(alloc: Global, windows: &mut Snapshot, window: Window) -> Option<Window>
    requires { is_channel window.channel ≡ true }
    ensures replaced { windows.new ≡ replaced windows.old window }
    ensures was { result ≡ window_of windows.old window.channel }
    ensures valid { IsSnapshot windows.old }
{
    let Some(place) = place_of(windows.windows(), window.channel) else {
        return None;
    };
    let mut rows = replace(windows, Snapshot::empty(alloc)).into_windows();
    let was = replace(&mut rows[place], window);
    *windows = as_snapshot(rows);
    Some(was)
}

/// How many windows stand in front of that of a channel.
fn place_of(windows: &[Window], channel: u32) -> Option<usize>
    ensures { result ≡ place_of windows.now channel }
{
    windows.iter().position(|window| window.channel == channel)
}

/// The snapshot of windows that make one.
fn as_snapshot(windows: Vec<Window>) -> Snapshot
    requires { snapshot_of windows.items ≡ Ok windows.items }
    ensures { result ≡ windows.items }
{
    match Snapshot::new(windows) {
        Ok(snapshot) => snapshot,
        Err(_) => unreachable!(),
    }
}

/// A window that is replaced stays where it is, and so does every other window. The function does nothing.
pub fn laws()
    ensures channels { ChannelsLaw }
    ensures others { OthersLaw }
    ensures new_one { NewLaw }
{}
