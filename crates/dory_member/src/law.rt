//! The laws of a command's course.
ghost use Rattle.std.specs.Prelude.{◌≡◌, ◌≢◌, ℕ, List, ◌++◌, ◌∷◌, [], Some, None, Ok, Err};
ghost use Rattle.dory_base.specs.declared.entry.Entry.{Entry};
ghost use Rattle.dory_base.specs.declared.ids.AskId.{AskId};
ghost use Rattle.dory_base.specs.declared.ids.Side.{Side};
ghost use Rattle.dory_base.specs.declared.ids.Side.TheVariants.{Lead, Follow};
ghost use Rattle.dory_base.specs.declared.found.Found.{Found};
ghost use Rattle.dory_hmac.specs.declared.folder_keys.FolderKeys.{FolderKeys};
ghost use Rattle.dory_query.specs.Columns.{asked_columns};
ghost use Rattle.dory_query.specs.declared.query.Query.{Query};
ghost use Rattle.dory_state.specs.declared.kept.KeptState.{KeptState};
ghost use Rattle.dory_verify.specs.Checks.{lengths_of};
ghost use Rattle.dory_verify.specs.Listing.{Lists};
ghost use Rattle.dory_member.specs.declared.command.Command.{Command};
ghost use Rattle.dory_member.specs.declared.outcome.Fault.TheVariants as fault;
ghost use Rattle.dory_member.specs.declared.outcome.Mark.{Mark};
ghost use Rattle.dory_member.specs.declared.phase.Phase.TheVariants.{Measuring, Updating};
ghost use Rattle.dory_member.specs.declared.phase.Run.{Run};
ghost use Rattle.dory_member.specs.declared.phase.Single.{Single};
ghost use Rattle.dory_member.specs.declared.phase.Single.TheVariants as single;
ghost use Rattle.dory_member.specs.declared.phase.UpdateStep.TheVariants.{StageFollow};
ghost use Rattle.dory_member.specs.Course.{answer_by, asked_of, asks, begun, ended_of, fails, lesser, name, outcome_at, put_at, query_of, run_after, took, updated};
ghost use Rattle.dory_member.specs.Confirmation.{Confirmation};
ghost use Rattle.dory_member.specs.Single.{confirmed};
ghost use Rattle.dory_member.specs.Whole.{search_asks, start, update_asks};

/// What a command has asked and how it has ended, after a list of replies, is told reply by reply: one more reply is one
/// step, which asks at most once more.
pub fn reply_by_reply()
    ensures begins { (run : Run) → asked_of run [] ≡ put_at run (asks run.phase) }
    ensures goes_on { (run : Run) (frames : List (List ℕ)) (frame : List ℕ) → run_after run (frames ++ frame ∷ []) ≡ took (run_after run frames) frame }
    ensures asks { (run : Run) (frames : List (List ℕ)) (frame : List ℕ) →
        asked_of run (frames ++ frame ∷ []) ≡ asked_of run frames ++ put_at (took (run_after run frames) frame) (asks (took (run_after run frames) frame).phase) }
    ensures ends { (run : Run) (frames : List (List ℕ)) (frame : List ℕ) → ended_of run (frames ++ frame ∷ []) ≡ outcome_at (took (run_after run frames) frame).phase }
{}

/// What a whole command asks. An update whose replies all confirm what they are asked is staged at the follower and then at
/// the lead, ordered at the lead, and followed at the number that the lead gave. A search asks both lengths, and then, where
/// these pass their checks, the keys of party 0 at the lead and those of party 1 at the follower, at the smaller length.
pub fn whole_commands()
    ensures update { (k : KeptState) (seed : List ℕ) (serial : ℕ) (e : Entry) (m0 m1 m2 m3 : Mark) (f0 f1 f2 f3 : List ℕ)
        → confirmed Follow (single.Stage e.id) (name (start k seed serial (Updating e StageFollow)) 0) f0 ≡ Ok m0
        → confirmed Lead (single.Stage e.id) (name (start k seed serial (Updating e StageFollow)) 1) f1 ≡ Ok m1
        → confirmed Lead (single.Order e.id) (name (start k seed serial (Updating e StageFollow)) 2) f2 ≡ Ok m2
        → confirmed Follow (single.Follow m2.number e.id) (name (start k seed serial (Updating e StageFollow)) 3) f3 ≡ Ok m3
        → (asked_of (start k seed serial (Updating e StageFollow)) (f0 ∷ f1 ∷ f2 ∷ f3 ∷ []) ≡ update_asks (start k seed serial (Updating e StageFollow)) e m2.number)
        × (ended_of (start k seed serial (Updating e StageFollow)) (f0 ∷ f1 ∷ f2 ∷ f3 ∷ []) ≡ Some (updated e.change e.doc m2.number)) }
    ensures search { (k : KeptState) (seed : List ℕ) (serial : ℕ) (word : List ℕ) (n : ℕ × ℕ) (f0 f1 f2 f3 : List ℕ)
        → lengths_of k.seen (name (start k seed serial (Measuring (Some word) None)) 0) (name (start k seed serial (Measuring (Some word) None)) 1) f0 f1 ≡ Ok n
        → asked_of (start k seed serial (Measuring (Some word) None)) (f0 ∷ f1 ∷ f2 ∷ f3 ∷ [])
        ≡ search_asks (start k seed serial (Measuring (Some word) None)) (query_of (start k seed serial (Measuring (Some word) None)) word (lesser n.0 n.1)) }
{}

/// A frame that confirms what it was asked is one whole reply to that ask, which says so.
pub fn confirmed_replies()
    ensures { (side : Side) (ask : Single) (asked : AskId) (frame : List ℕ) (m : Mark) → confirmed side ask asked frame ≡ Ok m → Confirmation side ask asked frame m }
{}

/// The answer to a search names its version, and lists what the two replies found, rising.
pub fn answers()
    ensures { (keys : FolderKeys) (q : Query) (lead follow : Found) → Lists keys (asked_columns q) q.version lead follow (answer_by keys q lead follow) }
{}

/// By its definition no command wants memory: none is refused so, and none ends so by its beginning or by a reply. So a member
/// that ends with NoMemory is one whose code ran out of it.
pub fn memory_is_never_wanted()
    ensures refused { (k : KeptState) (seed : List ℕ) (c : Command) → begun k seed c ≢ Err fault.NoMemory }
    ensures begins { (k : KeptState) (seed : List ℕ) (c : Command) (run : Run) → begun k seed c ≡ Ok run → run.phase ≢ fails fault.NoMemory }
    ensures goes_on { (run : Run) (frame : List ℕ) → (took run frame).phase ≡ fails fault.NoMemory → run.phase ≡ fails fault.NoMemory }
{}
