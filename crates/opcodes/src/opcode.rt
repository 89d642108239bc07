// The opcodes by name, each with its number, and a number's opcode.
#![tactic(auto, using(crate::proofs::NameLaws::unnamed))]

ghost use Rattle.std.specs.Prelude.{◌≡◌};
ghost use Rattle.opcodes.specs.Name.{number_of, Names};

#[derive(Clone, Copy, PartialEq, Eq)]
pub enum Opcode {
    Lda = 1,
    Sta = 2,
    Ada = 3,
    Sba = 4,
    Ana = 5,
    Ora = 6,
    Xra = 7,
    Cnt = 8,
    Aos = 9,
    Ldi = 10,
    Eap = 16,
    Spp = 17,
    Tra = 24,
    Tze = 25,
    Tmi = 26,
    Call = 32,
    Return = 33,
    Ldbr = 40,
    Hlt = 41,
    Rcu = 42,
}

// No opcode has the number.
#[derive(Clone, Copy, PartialEq, Eq)]
pub struct UnknownOpcode;

impl TryFrom<u8> for Opcode {
    type Error = UnknownOpcode;

    ghost try_from_gives = { Names };

    fn try_from(number: u8) -> Result<Self, UnknownOpcode> {
        match number {
            1 => Ok(Opcode::Lda),
            2 => Ok(Opcode::Sta),
            3 => Ok(Opcode::Ada),
            4 => Ok(Opcode::Sba),
            5 => Ok(Opcode::Ana),
            6 => Ok(Opcode::Ora),
            7 => Ok(Opcode::Xra),
            8 => Ok(Opcode::Cnt),
            9 => Ok(Opcode::Aos),
            10 => Ok(Opcode::Ldi),
            16 => Ok(Opcode::Eap),
            17 => Ok(Opcode::Spp),
            24 => Ok(Opcode::Tra),
            25 => Ok(Opcode::Tze),
            26 => Ok(Opcode::Tmi),
            32 => Ok(Opcode::Call),
            33 => Ok(Opcode::Return),
            40 => Ok(Opcode::Ldbr),
            41 => Ok(Opcode::Hlt),
            42 => Ok(Opcode::Rcu),
            _ => Err(UnknownOpcode),
        }
    }
}

impl From<Opcode> for u8 {
    ghost from_gives = { λ opcode number. number ≡ number_of opcode };

    fn from(opcode: Opcode) -> u8 {
        opcode as u8
    }
}
