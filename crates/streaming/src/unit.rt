// What the stages of a walk have in common: which states a walk can reach in a stage, what it asks for there, and what a piece does.
ghost use Rattle.std.specs.Prelude.{◌≡◌, ℕ, Bool, List, ◌<◌, ◌≤◌, length, is_some, IfSome};
ghost use Rattle.streaming.specs.declared.FlatWalker.{FlatWalker};
ghost use Rattle.streaming.specs.declared.Request.{Request};
ghost use Rattle.streaming.specs.declared.Fed.{Fed};

use crate::{Fed, FlatWalker, Request};

// A walk in one stage, in a state that it can reach there.
pub trait Unit: Copy {
    ghost is_fit: { FlatWalker → Bool };

    ghost request_of: { FlatWalker → Request };

    ghost feed_of: { FlatWalker → List ℕ → Fed };

    ghost walker: { Self → FlatWalker };

    // The walk in this stage, if it can reach the state.
    fn of(s: FlatWalker) -> Option<Self>
        ensures when { is_some result ≡ is_fit s }
        ensures whole { IfSome result (λ unit. walker unit ≡ s) };

    // What it asks for.
    fn request(self) -> Request
        ensures { result ≡ request_of (walker self) };

    // A nonempty piece of that, from its front.
    fn feed(self, piece: &[u8]) -> Fed
        requires { (0 < length piece.now) × (length piece.now ≤ (request_of (walker self)).len) }
        ensures { result ≡ feed_of (walker self) piece.now };
}
