//! The points of a section.
ghost use Rattle.std.specs.Prelude.{◌≡◌, ◌∷◌, ◌<◌, [], true, IfNone, IfSome};
ghost use Rattle.compare_text.specs.Indexed.{is_good, messages_at};
ghost use Rattle.compare_text.specs.Points.{is_point, points_in};

use input_types::{Body, FLAG_CANCELED, Message, MotionAction};
use stream_text::{StreamLine, StreamLines};

/// Whether a message is a point: anything but a move that is not canceled, unless each move is one.
fn is_point(each_move: bool, body: &Body) -> bool
    ensures { result ≡ is_point each_move body.now }
{
    match body {
        Body::Motion(motion) => {
            let is_move = matches!(motion.action, MotionAction::Move);
            each_move || !(is_move && motion.unmarked() != FLAG_CANCELED)
        }
        Body::Key(_) | Body::Focus(_) => true,
    }
}

/// The next point of the open section with its line; None at its end.
pub(crate) fn next_point(lines: &mut StreamLines<'_>, each_move: bool) -> Option<(u64, Message)>
    requires { is_good lines.old.events ≡ true }
    ensures some { IfSome result (λ p. points_in each_move (messages_at lines.old.events)
        ≡ p ∷ points_in each_move (messages_at lines.new.events)) }
    ensures good { IfSome result (λ p. is_good lines.new.events ≡ true) }
    ensures left { IfSome result (λ p. lines.new.left < lines.old.left) }
    ensures none { IfNone result (points_in each_move (messages_at lines.old.events) ≡ []) }
{
    'lines: loop {
        let Ok(Some((number, StreamLine::Message(message)))) = lines.next() else {
            return None;
        };
        if is_point(each_move, &message.body) {
            return Some((number, message));
        }
    }
}
