// The theory of formulas: its limits, and for each theorem a function whose contract is that theorem.
#![tactic(auto)]

ghost use Rattle.std.specs.Prelude.{◌≡◌};
ghost use Rattle.remora.specs.Forecasts.{limited};
ghost use Rattle.remora.specs.Histories.{EveryHistoryHolds, EveryRunBounded};
ghost use Rattle.remora.specs.Theorems.{PrincipalFrameIsJoin, QuestionsDecideTyping, VerdictDecidesTyping, TypedFormulasAreSound, HistoriesGoOn};

/// The most steps that a formula may be forecast.
pub const STEPS: u64 = 4_294_967_295;
/// The most room that a formula may be forecast.
pub const ROOM: u64 = 1_048_576;
/// The greatest depth that a formula may be forecast.
pub const DEPTH: u64 = 16;

/// Whether forecasts are within the limits.
pub fn within_limits(steps: u64, room: u64, depth: u64) -> bool
    ensures { result ≡ limited steps room depth }
{
    steps <= STEPS && room <= ROOM && depth <= DEPTH
}

/// The principal frame of frames that agree is their join.
pub fn principal_frame_is_join()
    ensures { PrincipalFrameIsJoin }
{}

/// The questions of enter are answered by yes exactly when the typing relation gives a line a type.
pub fn questions_decide_typing()
    ensures { QuestionsDecideTyping }
{}

/// A draft is found typed exactly when it is, and else the lowest line with a no is told with its first no.
pub fn verdict_decides_typing()
    ensures { VerdictDecidesTyping }
{}

/// Evaluation of a typed formula has an outcome of its type, and every cause is the algebra's own.
pub fn typed_formulas_are_sound()
    ensures { TypedFormulasAreSound }
{}

/// A new collection has the empty history, and each call carries a history on.
pub fn histories_go_on()
    ensures { HistoriesGoOn }
{}

/// Every history holds that a state and store were led to by.
pub fn every_history_holds()
    ensures { EveryHistoryHolds }
{}

/// A run never has more than 16 activations, and no call writes outside parameter atoms and room.
pub fn every_run_is_bounded()
    ensures { EveryRunBounded }
{}
