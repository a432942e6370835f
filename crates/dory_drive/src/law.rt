//! The law of one pair of a search, and where its requests stand.
ghost use Rattle.std.specs.Prelude.{◌≡◌, ◌∷◌, ◌++◌, ℕ, List, Some};
ghost use Rattle.dory_base.specs.declared.ids.Side.{Side};
ghost use Rattle.dory_wire.specs.declared.message.Request.{Request};
ghost use Rattle.dory_link.specs.Told.{Heard};
ghost use Rattle.dory_verify.specs.declared.answer.Answer.{Answer};
ghost use Rattle.dory_drive.specs.Asked.{FrameCame};
ghost use Rattle.dory_drive.specs.Course.{run_after};
ghost use Rattle.dory_drive.specs.Pair.{IsVerified, IsPaired, RightPair, SearchPair, request_of};
ghost use Rattle.dory_drive.specs.Way.{ExchangedInTurn, Links, link_at};

use crate::conversation::Conversation;

/// Each frame of a conversation came to what was asked when the frames before it had come.
pub fn came_in_turn<C: Conversation>()
    ensures { (side : Side) (request : Request) (run : C.Run) (earlier later : List (List ℕ)) (frame : List ℕ) (before after : Links)
        → C.course.asks (run_after C.course run earlier) ≡ Some (side, request)
        → ExchangedInTurn C.course run (earlier ++ frame ∷ later) before after → FrameCame (link_at side before) (link_at side after) request frame }
{}

/// Where a frame came to each request of a pair, wherever the two stand in a conversation, and the checks of both frames
/// end in an answer, the version is not older than what was seen, and by each side's link that tells its folders the
/// answer is right, or the other side's frame is the forgery.
pub fn right_beside_a_told_link()
    ensures { (p : SearchPair) (seen : ℕ) (frames : Side → List ℕ) (answer : Answer) (before after : Side → Heard)
        → IsPaired p → ((side : Side) → FrameCame (before side) (after side) (request_of p side) (frames side)) → IsVerified p seen frames answer
        → RightPair p seen answer before after }
{}
