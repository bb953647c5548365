//! Single-use pre-auth keys.
ghost use Rattle.std.specs.Prelude.{◌≡◌, ◌⊎◌, ◌++◌, ◌∷◌, ℕ, List, Option, true, false, Ok, Err, Contains};
ghost use Rattle.settings.specs.Settings.{AreSettings};
ghost use Rattle.tail_base.specs.declared.key.MachineKey.{MachineKey};
ghost use Rattle.net_rows.specs.Sound.{AreSound};
ghost use Rattle.net_rows.specs.declared.key.AuthKey.{AuthKey};
ghost use Rattle.net_rows.specs.declared.machine.Machine.{Machine};
ghost use Rattle.tailcfg.specs.declared.register.Register as form;
ghost use Rattle.desk_state.specs.Decisions.{rows_after};
ghost use Rattle.desk_state.specs.State.{State};
ghost use Rattle.desk_state.specs.declared.decision.Decision.{Decision};
ghost use Rattle.desk_state.specs.declared.refusal.Refusal.TheVariants.{KeyExpired, KeyUsed};
ghost use Rattle.machine_asks.specs.ByKey.{by_key, usable_key};
ghost use Rattle.machine_asks.specs.Decision.{decision};
ghost use Rattle.machine_asks.specs.declared.answer.MachineAnswer.{MachineAnswer};
ghost use Rattle.machine_asks.specs.declared.ask.MachineAsk.TheVariants.{Register};
ghost use Rattle.tailnet_desk.specs.History.{Legal, replay};
ghost use Rattle.tailnet_desk.specs.declared.entry.Entry.{Entry};
ghost use Rattle.tailnet_laws.specs.Entrances.{HasMachine};
ghost use Rattle.tailnet_laws.specs.KeyUse.{IsByKey, PutsByText};

/// A key that was used and isn't reusable is refused as used or as expired, and so is a registration
/// whose rules get as far as its key.
pub fn used_keys_are_refused()
    ensures refused { (s : State) (k : AuthKey) → AreSound s.rows → Contains s.rows.keys k
        → k.used ≡ true → k.reusable ≡ false
        → (usable_key s k.text ≡ Err KeyUsed) ⊎ (usable_key s k.text ≡ Err KeyExpired) }
    ensures registrations { (s : State) (k : AuthKey) (mk : MachineKey) (x : form.Register)
        (held : Option Machine) → AreSound s.rows → Contains s.rows.keys k
        → k.used ≡ true → k.reusable ≡ false → x.auth ≡ k.text
        → (by_key s mk x held ≡ Err KeyUsed) ⊎ (by_key s mk x held ≡ Err KeyExpired) }
{}

/// A registration that gives its machine a row puts it by a pre-auth key that may be used, and the row is
/// that key's user's, with the key's tags and those that the machine asked for.
pub fn registrations_take_keys()
    ensures taken { (s : State) (mk : MachineKey) (x : form.Register) (words : Option (List ℕ))
        (d : Decision MachineAnswer) → (HasMachine s.rows mk → ⊥)
        → decision s (Register mk x) words ≡ Ok d
        → HasMachine (rows_after s.rows d.change) mk → PutsByText s d mk x }
{}

/// No two entries of a legal history admit machines by the single-use key of one id.
pub fn single_use_keys_admit_once()
    ensures once { (s : State) (count : ℕ) (before : List Entry) (e : Entry)
        (between : List Entry) (f : Entry) (later : List Entry) (id : ℕ)
        → AreSettings s.settings → AreSound s.rows
        → Legal s count (before ++ e ∷ between ++ f ∷ later) → IsByKey (replay s before) e id
        → IsByKey (replay s (before ++ e ∷ between)) f id → ⊥ }
{}
