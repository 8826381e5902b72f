//! Options.

ghost use Rattle.std.specs.Prelude.{◌≡◌, ◌≤◌, ◌+◌, length};
ghost use Rattle.ifr_opcodes.specs.declared.codes.TheConstants.{ONE_OF_OPTION};
ghost use Rattle.ifr_opcodes.specs.declared.kinds.TheConstants.{TYPE_BOOLEAN};
ghost use Rattle.browser_rules.specs.Opcodes.{type_width};
ghost use Rattle.ifr_opcodes.specs.Fields.{option_kind};
ghost use Rattle.ifr_opcodes.specs.code.Ops.{bytes_of};

use crate::codes::ONE_OF_OPTION;
use crate::kinds::kind_width;
use crate::op::Op;
use hii_bytes::Fault;

/// The flag of the option that is the default (EFI_IFR_OPTION_DEFAULT).
const OPTION_DEFAULT: u8 = 0x10;

/// The flag of the option that is the default of manufacturing (EFI_IFR_OPTION_DEFAULT_MFG).
const OPTION_DEFAULT_MFG: u8 = 0x20;

/// A value that a question may take (UEFI 2.8, 33.3.8.3, EFI_IFR_ONE_OF_OPTION).
#[derive(Clone, Copy)]
pub struct OptionOp<'a> {
    pub op: Op<'a>,
    pub ghost coded: { op.code ≡ ONE_OF_OPTION },
    pub ghost sized: { 6 + type_width (option_kind (bytes_of op)) ≤ length (bytes_of op) },
    pub ghost numeric: { option_kind (bytes_of op) ≤ TYPE_BOOLEAN },
}

impl<'a> OptionOp<'a> {
    ghost use Rattle.ifr_opcodes.specs.Fields.{option_text, option_flags, option_value, is_default_option, is_manufacturing_option};
    ghost use Rattle.ifr_opcodes.specs.Rows.{is_row};
    ghost use Rattle.ifr_opcodes.specs.code.Views.{Reads};

    /// Another opcode, and one whose Type is neither a number nor a Boolean, is refused by OpOutside, one that lacks its
    /// Type or bytes of its value by OpSize, each at its place.
    #[tactic(auto, using(crate::proofs::RowLemmas::option_numeric))]
    pub fn read(op: Op<'a>) -> Result<OptionOp<'a>, Fault>
        ensures { Reads (is_row ONE_OF_OPTION) (λ view. view.op) op.entry result }
    {
        op.check_row(ONE_OF_OPTION)?;
        Ok(OptionOp { op })
    }

    /// The string id of the text.
    pub fn text(self) -> u16
        ensures { result ≡ option_text (bytes_of self.entry.op) }
    {
        self.op.u16_at(2)
    }

    /// The flags of the option.
    pub fn flags(self) -> u8
        ensures { result ≡ option_flags (bytes_of self.entry.op) }
    {
        self.op.u8_at(4)
    }

    /// The Type of the value, a number or a Boolean.
    pub fn kind(self) -> u8
        ensures { result ≡ option_kind (bytes_of self.entry.op) }
    {
        self.op.u8_at(5)
    }

    /// The value of the option.
    pub fn value(self) -> u64
        ensures { result ≡ option_value (bytes_of self.entry.op) }
    {
        self.op.number_at(6, kind_width(self.kind()))
    }

    /// Whether it is the default.
    pub fn is_default(self) -> bool
        ensures { result ≡ is_default_option (bytes_of self.entry.op) }
    {
        self.flags() & OPTION_DEFAULT != 0
    }

    /// Whether it is the default of manufacturing.
    pub fn is_manufacturing_default(self) -> bool
        ensures { result ≡ is_manufacturing_option (bytes_of self.entry.op) }
    {
        self.flags() & OPTION_DEFAULT_MFG != 0
    }
}
