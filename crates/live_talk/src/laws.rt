//! What a line of a talk does, so that it can't be read more weakly. Each is the contract of a function
//! without parameters that does nothing.

ghost use Rattle.std.specs.Prelude.{◌≡◌, ◌+◌, ◌++◌, ◌∷◌, ℕ, min, true, false, List, [], Ok, Err, if◌then◌else◌};
ghost use Rattle.tss_io.specs.Kinds.{is_long};
ghost use Rattle.tss_io.specs.Reading.{refused_at};
ghost use Rattle.tss_io.specs.declared.cause.Cause.{Cause};
ghost use Rattle.tss_io.specs.declared.cause.Cause.TheVariants.{End, Long};
ghost use Rattle.report_text.specs.Ends.{done_line, refused_text};
ghost use Rattle.live_text.specs.declared.request.Request.{Request};
ghost use Rattle.live_talk.specs.Lines.{is_end, ok_line};
ghost use Rattle.live_talk.specs.Talked.{TalkState, asked_by, talk_way};

use crate::asked::Asked;

/// A line that asks something is counted, and what it asks is done and told; then `ok` is told, or
/// `done` at `end`, behind which no line is taken.
pub fn a_request_is_answered<S: Asked>()
    ensures led { (t : TalkState S) (l : List ℕ) (r : Request)
        → asked_by S.asking t.session l ≡ Ok r → (talk_way S.asking).led t l ≡ record {
          session = S.asking.played t.session r;
          line = min (t.line + 1) 4294967295;
          is_over = is_end r;
        } }
    ensures told { (t : TalkState S) (l : List ℕ) (r : Request)
        → asked_by S.asking t.session l ≡ Ok r → (talk_way S.asking).told t l
        ≡ S.asking.answer t.session r ++ (if is_end r then done_line else ok_line) }
{}

/// A line that is refused is counted, and changes nothing else; its refusal is all that is told. One that
/// is too long is refused for that before it is read.
pub fn a_refused_line_changes_nothing<S: Asked>()
    ensures led { (t : TalkState S) (l : List ℕ) (cause : Cause)
        → asked_by S.asking t.session l ≡ Err cause → (talk_way S.asking).led t l ≡ record {
          session = t.session;
          line = min (t.line + 1) 4294967295;
          is_over = t.is_over;
        } }
    ensures told { (t : TalkState S) (l : List ℕ) (cause : Cause)
        → asked_by S.asking t.session l ≡ Err cause
        → (talk_way S.asking).told t l ≡ refused_text (refused_at t.line cause) }
    ensures long { (s : S) (l : List ℕ) → is_long l ≡ true → asked_by S.asking s l ≡ Err Long }
    ensures short { (s : S) (l : List ℕ) → is_long l ≡ false
        → asked_by S.asking s l ≡ S.asking.asked s l }
{}

/// Behind the end of the text no line is taken. Bytes behind its last newline are refused there, however
/// many, and where there are none nothing is told.
pub fn the_end_of_the_text_ends_the_talk<S: Asked>()
    ensures over { (t : TalkState S) (begun : List ℕ)
        → (talk_way S.asking).closed t begun
        ≡ record { session = t.session; line = t.line; is_over = true } }
    ensures none { (t : TalkState S) → (talk_way S.asking).told_at_end t [] ≡ [] }
    ensures torn { (t : TalkState S) (b : ℕ) (begun : List ℕ)
        → (talk_way S.asking).told_at_end t (b ∷ begun) ≡ refused_text (refused_at t.line End) }
{}
