//! Laws of every history: what holds after any commands. The functions do nothing; each carries a
//! theorem as its contract.

ghost use Rattle.std.specs.Prelude.{◌≡◌, ℕ, None, All, List, map, false, true};
ghost use Rattle.std.specs.List.{IsDistinct};
ghost use Rattle.std.specs.Str.{bytes_eq};
ghost use Rattle.cell_refs.specs.declared.handles.Handle.{Handle};
ghost use Rattle.cell_values.specs.declared.values.Value.{Value};
ghost use Rattle.workbook.specs.declared.commands.Command.{Command};
ghost use Rattle.workbook.specs.declared.replies.Reply.{Reply};
ghost use Rattle.workbook.specs.History.{Attempt, exchanges, leaves_flag_up, state_after_attempts};
ghost use Rattle.workbook.specs.State.{HostTerms, KnownServer, State, first_state};
ghost use Rattle.workbook.specs.Step.{is_open_handle, reply_to, state_after};

/// No server is known twice, and the flag of a known server is up exactly where a Notify of it was
/// answered Ok and no later Pull was answered Pulled without naming it as failed.
pub fn a_flag_stays_up_until_it_is_pulled()
    ensures once { (terms : HostTerms) (attempts : List Attempt)
        → IsDistinct bytes_eq (map (λ (server : KnownServer). server.name)
        (state_after_attempts terms first_state attempts).servers) }
    ensures flag { (terms : HostTerms) (attempts : List Attempt)
        → All (λ (server : KnownServer).
        server.flag ≡ leaves_flag_up server.name (exchanges terms first_state attempts))
        (state_after_attempts terms first_state attempts).servers }
{}

/// Once a Return of a handle is answered Code 0, every later one is answered Code 256, whatever
/// comes between them. So is a Return where no recalculation runs, and one of another recalculation
/// than the last begun.
pub fn a_handle_writes_at_most_once()
    ensures once { (terms : HostTerms) (s : State) (failed : List (List ℕ)) (handle : Handle)
        → (value : Value) → reply_to terms failed s (Command.Return handle value) ≡ Reply.Code 0
        → (attempts : List Attempt) (others : List (List ℕ)) (other : Value)
        → let written = state_after terms failed s (Command.Return handle value) in
        reply_to terms others (state_after_attempts terms written attempts)
        (Command.Return handle other) ≡ Reply.Code 256 }
    ensures idle { (terms : HostTerms) (s : State) → s.running ≡ None
        → (failed : List (List ℕ)) (handle : Handle) (value : Value)
        → reply_to terms failed s (Command.Return handle value) ≡ Reply.Code 256 }
    ensures round { (terms : HostTerms) (s : State) (handle : Handle)
        → ¬ (handle.round ≡ s.round) → (failed : List (List ℕ)) (value : Value)
        → reply_to terms failed s (Command.Return handle value) ≡ Reply.Code 256 }
{}

/// A call that is open after some commands, and not after some more, is never open again.
pub fn an_answered_call_is_asked_no_more()
    ensures { (terms : HostTerms) (before between behind : List Attempt) (handle : Handle)
        → let opened = state_after_attempts terms first_state before in
        let answered = state_after_attempts terms opened between in
        let later = state_after_attempts terms answered behind in
        is_open_handle terms opened handle ≡ true → is_open_handle terms answered handle ≡ false
        → is_open_handle terms later handle ≡ false }
{}
