//! What a shared object does with the calls that come to it, one after another.
ghost use Rattle.std.specs.Prelude.{◌≡◌, ℕ, ◌^◌, ◌<◌, List, [], ◌∷◌, ◌++◌, IfOk, MatchResult};
ghost use Rattle.shared_history.specs.Events.{of_pass};

use std::alloc::Global;

/// There was no memory.
#[derive(Drop)]
pub struct NoMemory;

/// There was no memory, and this comes back.
#[derive(Drop)]
pub struct Back<C> {
    pub kept: C,
}

/// A sequential object whose calls are kept as a history of entries. Entry, reply and permission are functions of the
/// history before the call and of the number of the pass that makes it.
pub trait Law {
    /// One event, as the history keeps it.
    type Entry: Drop;

    /// What a pass asks for.
    type Call;

    /// What a call answers.
    type Reply;

    /// What is needed of the history to act on the next call.
    type State: Drop;

    /// The number of the pass whose event this is.
    ghost by: { Self.Entry → ℕ };

    /// The pass may make this call after this history.
    ghost permits: { Self → List Self.Entry → ℕ → Self.Call → Type 0 };

    /// The event that the call makes after this history.
    ghost entry_of: { Self → List Self.Entry → ℕ → Self.Call → Self.Entry };

    /// The reply that the call gets after this history.
    ghost reply_of: { Self → List Self.Entry → ℕ → Self.Call → Self.Reply };

    /// The state is one after this history.
    ghost stands: { Self → Self.State → List Self.Entry → Type 0 };

    /// The state of the empty history.
    fn first(&self, alloc: Global) -> Result<Self::State, NoMemory>
        ensures { IfOk result (λ s. stands self.now s []) };

    /// Acts on a call that is permitted after some history for which the state stands, whichever this is.
    /// After `Back` the state still stands for it.
    fn act(
        &self,
        alloc: Global,
        state: &mut Self::State,
        pass: u32,
        call: Self::Call,
    ) -> Result<(Self::Entry, Self::Reply), Back<Self::Call>>
        requires { (history : List Self.Entry) × stands self.now state.old history
            × permits self.now history pass call }
        ensures { (history : List Self.Entry) → stands self.now state.old history
            → permits self.now history pass call
            → MatchResult result
            (λ r. (r.0 ≡ entry_of self.now history pass call)
            × (r.1 ≡ reply_of self.now history pass call)
            × stands self.now state.new (history ++ r.0 ∷ []))
            (λ back. (back.kept ≡ call) × stands self.now state.new history) };

    /// An entry equal to this one.
    fn copy(&self, alloc: Global, entry: &Self::Entry) -> Result<Self::Entry, NoMemory>
        ensures { IfOk result (λ e. e ≡ entry.now) };

    /// An event has the number of its pass.
    ghost stamped: { (law : Self) (history : List Self.Entry) (pass : ℕ) (call : Self.Call)
        → by (entry_of law history pass call) ≡ pass };

    /// What a pass is permitted stays permitted when entries of other passes are appended.
    ghost stays: { (law : Self) (history more : List Self.Entry) (pass : ℕ) (call : Self.Call)
        → of_pass by pass more ≡ [] → permits law history pass call
        → permits law (history ++ more) pass call };
}
