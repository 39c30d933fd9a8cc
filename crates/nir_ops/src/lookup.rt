//! Opcodes by their names.

ghost use Rattle.std.specs.Prelude.{◌≡◌, ℕ, List, Option, IfSome, find};
ghost use Rattle.std.specs.Str.{bytes_eq};
ghost use Rattle.nir_ops.specs.Opcodes.{name_of};
ghost use Rattle.nir_ops.specs.Lookup.{NamesAreDistinct, all_ops, op_named};

use crate::op::Op;
use crate::table::name;

/// The opcode of that name, None exactly where no opcode has it.
pub fn op_by_name(text: &str) -> Option<Op>
    ensures found { result ≡ op_named text.now }
    ensures named { IfSome result (λ op. name_of op ≡ text.now) }
    ensures every { (op : Op) → name_of op ≡ text.now → result ≡ Some op }
{
    op_by_bytes(text.as_bytes())
}

/// The opcode whose name has these bytes, None exactly where no opcode has it.
pub fn op_by_bytes(text: &[u8]) -> Option<Op>
    ensures found { result ≡ op_named text.now }
    ensures named { IfSome result (λ op. name_of op ≡ text.now) }
    ensures every { (op : Op) → name_of op ≡ text.now → result ≡ Some op }
{
    first_named(&OPS, text)
}

/// No two opcodes have one name.
pub fn names_are_distinct()
    ensures { NamesAreDistinct }
{}

/// All opcodes, in the order of the table.
const OPS: [Op; 88] = [
    Op::Iadd,
    Op::Isub,
    Op::Imul,
    Op::Ineg,
    Op::Iabs,
    Op::Idiv,
    Op::Udiv,
    Op::Irem,
    Op::Imod,
    Op::Umod,
    Op::Ishl,
    Op::Ishr,
    Op::Ushr,
    Op::Urol,
    Op::Uror,
    Op::Inot,
    Op::Iand,
    Op::Ior,
    Op::Ixor,
    Op::Ilt,
    Op::Ige,
    Op::Ult,
    Op::Uge,
    Op::Ieq,
    Op::Ine,
    Op::Bcsel,
    Op::Imin,
    Op::Imax,
    Op::Umin,
    Op::Umax,
    Op::UaddCarry,
    Op::UsubBorrow,
    Op::IaddSat,
    Op::IsubSat,
    Op::UaddSat,
    Op::UsubSat,
    Op::Uhadd,
    Op::Ihadd,
    Op::Urhadd,
    Op::Irhadd,
    Op::UabsIsub,
    Op::UabsUsub,
    Op::ImulHigh,
    Op::UmulHigh,
    Op::Imul2x32_64,
    Op::Umul2x32_64,
    Op::BitCount,
    Op::UfindMsb,
    Op::FindLsb,
    Op::IfindMsb,
    Op::BitfieldReverse,
    Op::Bfm,
    Op::Bfi,
    Op::Ubfe,
    Op::Ibfe,
    Op::BitfieldSelect,
    Op::I2i8,
    Op::I2i16,
    Op::I2i32,
    Op::I2i64,
    Op::U2u8,
    Op::U2u16,
    Op::U2u32,
    Op::U2u64,
    Op::B2i8,
    Op::B2i16,
    Op::B2i32,
    Op::B2i64,
    Op::Pack64_2x32Split,
    Op::Unpack64_2x32SplitX,
    Op::Unpack64_2x32SplitY,
    Op::Pack32_2x16Split,
    Op::Unpack32_2x16SplitX,
    Op::Unpack32_2x16SplitY,
    Op::ExtractU8,
    Op::ExtractU16,
    Op::ExtractI8,
    Op::ExtractI16,
    Op::Mov,
    Op::Vec2,
    Op::Vec3,
    Op::Vec4,
    Op::BallIequal2,
    Op::BallIequal3,
    Op::BallIequal4,
    Op::BanyInequal2,
    Op::BanyInequal3,
    Op::BanyInequal4,
];

/// The first of the opcodes that has the name.
fn first_named(ops: &[Op], text: &[u8]) -> Option<Op>
    ensures { result ≡ find (λ op. bytes_eq (name_of op) text.now) ops.now }
{
    for op in ops {
        if name(*op).as_bytes() == text {
            return Some(*op);
        }
    }
    None
}
