// Why a call of the library refuses a panel that comes as codes.
ghost use Rattle.std.specs.Prelude.{◌≡◌};
ghost use Rattle.kahopiru.specs.Refusal.{call_number};
ghost use Rattle.kahopiru.specs.declared.refusal.CallRefusal.TheVariants.{Code, Panel};

use panel::Refusal;
use panel_codes::UnknownCode;

// A code is refused before all checks, a panel by the first that fails.
#[derive(Clone, Copy)]
pub enum CallRefusal {
    // 13: a code stands for nothing.
    Code,
    // 1, 22, 8 or 2 to 6: the panel is refused.
    Panel(Refusal),
}

// The number of a refusal.
impl From<CallRefusal> for u8 {
    ghost from_gives = { λ refusal n. n ≡ call_number refusal };

    fn from(refusal: CallRefusal) -> u8 {
        match refusal {
            CallRefusal::Code => 13,
            CallRefusal::Panel(refusal) => u8::from(refusal),
        }
    }
}

impl From<UnknownCode> for CallRefusal {
    ghost from_gives = { λ _ refusal. refusal ≡ Code };

    fn from(_code: UnknownCode) -> CallRefusal {
        CallRefusal::Code
    }
}

impl From<Refusal> for CallRefusal {
    ghost from_gives = { λ refusal call. call ≡ Panel refusal };

    fn from(refusal: Refusal) -> CallRefusal {
        CallRefusal::Panel(refusal)
    }
}
