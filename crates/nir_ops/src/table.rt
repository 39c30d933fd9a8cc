//! The table of the opcodes: what each takes and gives, its name, and the bit sizes at which it works.

ghost use Rattle.std.specs.Prelude.{◌≡◌, ◌≤◌, [], ◌∷◌, map, replicate};
ghost use Rattle.nir_ops.specs.Opcodes.{name_of, none, op_allows, op_info, row_of, sizes_allow, source_at, type_at, u, n1, commutative};
ghost use Rattle.nir_ops.specs.declared.row.Base.TheVariants.{Uint};

use crate::op::Op;
use crate::props::Props;
use crate::row::Base::{self, Int, Uint};
use crate::row::{Inputs, OpInfo, OpInput, OpType, Sizes};
use crate::width::Width::{self, W1, W8, W16, W32, W64};

/// The row of the opcode: its sources, its result and its marks.
#[tactic(auto, unfolding(crate::specs::Opcodes::op_info, crate::specs::Opcodes::row_of))]
pub fn info(op: Op) -> OpInfo
    ensures { result ≡ op_info op }
{
    match op {
        Op::Iadd => binary(Int, None, None, None, Props::BOTH),
        Op::Isub => binary(Int, None, None, None, Props::NONE),
        Op::Imul => binary(Int, None, None, None, Props::BOTH),
        Op::Ineg => unary(Int, None, None),
        Op::Iabs => unary(Int, None, None),
        Op::Idiv => binary(Int, None, None, None, Props::NONE),
        Op::Udiv => binary(Uint, None, None, None, Props::NONE),
        Op::Irem => binary(Int, None, None, None, Props::NONE),
        Op::Imod => binary(Int, None, None, None, Props::NONE),
        Op::Umod => binary(Uint, None, None, None, Props::NONE),
        Op::Ishl => binary(Int, None, Some(W32), None, Props::NONE),
        Op::Ishr => binary(Int, None, Some(W32), None, Props::NONE),
        Op::Ushr => binary(Uint, None, Some(W32), None, Props::NONE),
        Op::Urol => binary(Uint, None, Some(W32), None, Props::NONE),
        Op::Uror => binary(Uint, None, Some(W32), None, Props::NONE),
        Op::Inot => unary(Int, None, None),
        Op::Iand => binary(Int, None, None, None, Props::BOTH),
        Op::Ior => binary(Int, None, None, None, Props::BOTH),
        Op::Ixor => binary(Int, None, None, None, Props::BOTH),
        Op::Ilt => binary(Int, None, None, Some(W1), Props::NONE),
        Op::Ige => binary(Int, None, None, Some(W1), Props::NONE),
        Op::Ult => binary(Uint, None, None, Some(W1), Props::NONE),
        Op::Uge => binary(Uint, None, None, Some(W1), Props::NONE),
        Op::Ieq => binary(Int, None, None, Some(W1), Props::COMMUTATIVE),
        Op::Ine => binary(Int, None, None, Some(W1), Props::COMMUTATIVE),
        Op::Bcsel => ternary(Uint, Some(W1), None, None, None),
        Op::Imin => binary(Int, None, None, None, Props::BOTH),
        Op::Imax => binary(Int, None, None, None, Props::BOTH),
        Op::Umin => binary(Uint, None, None, None, Props::BOTH),
        Op::Umax => binary(Uint, None, None, None, Props::BOTH),
        Op::UaddCarry => binary(Uint, None, None, None, Props::COMMUTATIVE),
        Op::UsubBorrow => binary(Uint, None, None, None, Props::NONE),
        Op::IaddSat => binary(Int, None, None, None, Props::COMMUTATIVE),
        Op::IsubSat => binary(Int, None, None, None, Props::NONE),
        Op::UaddSat => binary(Uint, None, None, None, Props::COMMUTATIVE),
        Op::UsubSat => binary(Uint, None, None, None, Props::NONE),
        Op::Uhadd => binary(Uint, None, None, None, Props::COMMUTATIVE),
        Op::Ihadd => binary(Int, None, None, None, Props::COMMUTATIVE),
        Op::Urhadd => binary(Uint, None, None, None, Props::COMMUTATIVE),
        Op::Irhadd => binary(Int, None, None, None, Props::COMMUTATIVE),
        Op::UabsIsub => binary(Uint, None, None, None, Props::NONE),
        Op::UabsUsub => binary(Uint, None, None, None, Props::NONE),
        Op::ImulHigh => binary(Int, None, None, None, Props::COMMUTATIVE),
        Op::UmulHigh => binary(Uint, None, None, None, Props::COMMUTATIVE),
        Op::Imul2x32_64 => binary(Int, Some(W32), Some(W32), Some(W64), Props::COMMUTATIVE),
        Op::Umul2x32_64 => binary(Uint, Some(W32), Some(W32), Some(W64), Props::COMMUTATIVE),
        Op::BitCount => unary(Uint, None, Some(W32)),
        Op::UfindMsb => unary(Uint, None, Some(W32)),
        Op::FindLsb => unary(Uint, None, Some(W32)),
        Op::IfindMsb => unary(Int, Some(W32), Some(W32)),
        Op::BitfieldReverse => unary(Uint, Some(W32), Some(W32)),
        Op::Bfm => binary(Uint, Some(W32), Some(W32), Some(W32), Props::NONE),
        Op::Bfi => ternary(Uint, Some(W32), Some(W32), Some(W32), Some(W32)),
        Op::Ubfe => ternary(Uint, Some(W32), Some(W32), Some(W32), Some(W32)),
        Op::Ibfe => ternary(Int, Some(W32), Some(W32), Some(W32), Some(W32)),
        Op::BitfieldSelect => ternary(Uint, None, None, None, None),
        Op::I2i8 => unary(Int, None, Some(W8)),
        Op::I2i16 => unary(Int, None, Some(W16)),
        Op::I2i32 => unary(Int, None, Some(W32)),
        Op::I2i64 => unary(Int, None, Some(W64)),
        Op::U2u8 => unary(Uint, None, Some(W8)),
        Op::U2u16 => unary(Uint, None, Some(W16)),
        Op::U2u32 => unary(Uint, None, Some(W32)),
        Op::U2u64 => unary(Uint, None, Some(W64)),
        Op::B2i8 => unary(Uint, Some(W1), Some(W8)),
        Op::B2i16 => unary(Uint, Some(W1), Some(W16)),
        Op::B2i32 => unary(Uint, Some(W1), Some(W32)),
        Op::B2i64 => unary(Uint, Some(W1), Some(W64)),
        Op::Pack64_2x32Split => binary(Uint, Some(W32), Some(W32), Some(W64), Props::NONE),
        Op::Unpack64_2x32SplitX => unary(Uint, Some(W64), Some(W32)),
        Op::Unpack64_2x32SplitY => unary(Uint, Some(W64), Some(W32)),
        Op::Pack32_2x16Split => binary(Uint, Some(W16), Some(W16), Some(W32), Props::NONE),
        Op::Unpack32_2x16SplitX => unary(Uint, Some(W32), Some(W16)),
        Op::Unpack32_2x16SplitY => unary(Uint, Some(W32), Some(W16)),
        Op::ExtractU8 => binary(Uint, None, None, None, Props::NONE),
        Op::ExtractU16 => binary(Uint, None, None, None, Props::NONE),
        Op::ExtractI8 => binary(Uint, None, None, None, Props::NONE),
        Op::ExtractI16 => binary(Uint, None, None, None, Props::NONE),
        Op::Mov => unary(Uint, None, None),
        Op::Vec2 => gather(2),
        Op::Vec3 => gather(3),
        Op::Vec4 => gather(4),
        Op::BallIequal2 => reduce(2),
        Op::BallIequal3 => reduce(3),
        Op::BallIequal4 => reduce(4),
        Op::BanyInequal2 => reduce(2),
        Op::BanyInequal3 => reduce(3),
        Op::BanyInequal4 => reduce(4),
    }
}

/// The name of the opcode.
#[tactic(auto, unfolding(crate::specs::Opcodes::name_of, crate::specs::Opcodes::row_of))]
pub fn name(op: Op) -> &'static str
    ensures { result.now ≡ name_of op }
{
    match op {
        Op::Iadd => "iadd",
        Op::Isub => "isub",
        Op::Imul => "imul",
        Op::Ineg => "ineg",
        Op::Iabs => "iabs",
        Op::Idiv => "idiv",
        Op::Udiv => "udiv",
        Op::Irem => "irem",
        Op::Imod => "imod",
        Op::Umod => "umod",
        Op::Ishl => "ishl",
        Op::Ishr => "ishr",
        Op::Ushr => "ushr",
        Op::Urol => "urol",
        Op::Uror => "uror",
        Op::Inot => "inot",
        Op::Iand => "iand",
        Op::Ior => "ior",
        Op::Ixor => "ixor",
        Op::Ilt => "ilt",
        Op::Ige => "ige",
        Op::Ult => "ult",
        Op::Uge => "uge",
        Op::Ieq => "ieq",
        Op::Ine => "ine",
        Op::Bcsel => "bcsel",
        Op::Imin => "imin",
        Op::Imax => "imax",
        Op::Umin => "umin",
        Op::Umax => "umax",
        Op::UaddCarry => "uadd_carry",
        Op::UsubBorrow => "usub_borrow",
        Op::IaddSat => "iadd_sat",
        Op::IsubSat => "isub_sat",
        Op::UaddSat => "uadd_sat",
        Op::UsubSat => "usub_sat",
        Op::Uhadd => "uhadd",
        Op::Ihadd => "ihadd",
        Op::Urhadd => "urhadd",
        Op::Irhadd => "irhadd",
        Op::UabsIsub => "uabs_isub",
        Op::UabsUsub => "uabs_usub",
        Op::ImulHigh => "imul_high",
        Op::UmulHigh => "umul_high",
        Op::Imul2x32_64 => "imul_2x32_64",
        Op::Umul2x32_64 => "umul_2x32_64",
        Op::BitCount => "bit_count",
        Op::UfindMsb => "ufind_msb",
        Op::FindLsb => "find_lsb",
        Op::IfindMsb => "ifind_msb",
        Op::BitfieldReverse => "bitfield_reverse",
        Op::Bfm => "bfm",
        Op::Bfi => "bfi",
        Op::Ubfe => "ubfe",
        Op::Ibfe => "ibfe",
        Op::BitfieldSelect => "bitfield_select",
        Op::I2i8 => "i2i8",
        Op::I2i16 => "i2i16",
        Op::I2i32 => "i2i32",
        Op::I2i64 => "i2i64",
        Op::U2u8 => "u2u8",
        Op::U2u16 => "u2u16",
        Op::U2u32 => "u2u32",
        Op::U2u64 => "u2u64",
        Op::B2i8 => "b2i8",
        Op::B2i16 => "b2i16",
        Op::B2i32 => "b2i32",
        Op::B2i64 => "b2i64",
        Op::Pack64_2x32Split => "pack_64_2x32_split",
        Op::Unpack64_2x32SplitX => "unpack_64_2x32_split_x",
        Op::Unpack64_2x32SplitY => "unpack_64_2x32_split_y",
        Op::Pack32_2x16Split => "pack_32_2x16_split",
        Op::Unpack32_2x16SplitX => "unpack_32_2x16_split_x",
        Op::Unpack32_2x16SplitY => "unpack_32_2x16_split_y",
        Op::ExtractU8 => "extract_u8",
        Op::ExtractU16 => "extract_u16",
        Op::ExtractI8 => "extract_i8",
        Op::ExtractI16 => "extract_i16",
        Op::Mov => "mov",
        Op::Vec2 => "vec2",
        Op::Vec3 => "vec3",
        Op::Vec4 => "vec4",
        Op::BallIequal2 => "ball_iequal2",
        Op::BallIequal3 => "ball_iequal3",
        Op::BallIequal4 => "ball_iequal4",
        Op::BanyInequal2 => "bany_inequal2",
        Op::BanyInequal3 => "bany_inequal3",
        Op::BanyInequal4 => "bany_inequal4",
    }
}

/// Whether the unsized sources and result of the opcode may have this bit size. For an opcode
/// without unsized ones it is true.
#[tactic(auto, unfolding(crate::specs::Opcodes::op_allows))]
pub fn allowed(op: Op, width: Width) -> bool
    ensures { result ≡ op_allows op width }
{
    match sizes(op) {
        Sizes::Whole => is_whole(width),
        Sizes::Every => true,
        Sizes::Fixed => true,
    }
}

fn is_whole(width: Width) -> bool
    ensures { result ≡ sizes_allow Sizes.Whole width }
{
    match width {
        W1 => false,
        W8 => true,
        W16 => true,
        W32 => true,
        W64 => true,
    }
}

#[tactic(auto, unfolding(crate::specs::Opcodes::row_of))]
fn sizes(op: Op) -> Sizes
    ensures { result ≡ (row_of op).sizes }
{
    match op {
        Op::Iadd => Sizes::Whole,
        Op::Isub => Sizes::Whole,
        Op::Imul => Sizes::Whole,
        Op::Ineg => Sizes::Whole,
        Op::Iabs => Sizes::Whole,
        Op::Idiv => Sizes::Whole,
        Op::Udiv => Sizes::Whole,
        Op::Irem => Sizes::Whole,
        Op::Imod => Sizes::Whole,
        Op::Umod => Sizes::Whole,
        Op::Ishl => Sizes::Whole,
        Op::Ishr => Sizes::Whole,
        Op::Ushr => Sizes::Whole,
        Op::Urol => Sizes::Whole,
        Op::Uror => Sizes::Whole,
        Op::Inot => Sizes::Every,
        Op::Iand => Sizes::Every,
        Op::Ior => Sizes::Every,
        Op::Ixor => Sizes::Every,
        Op::Ilt => Sizes::Whole,
        Op::Ige => Sizes::Whole,
        Op::Ult => Sizes::Whole,
        Op::Uge => Sizes::Whole,
        Op::Ieq => Sizes::Every,
        Op::Ine => Sizes::Every,
        Op::Bcsel => Sizes::Every,
        Op::Imin => Sizes::Whole,
        Op::Imax => Sizes::Whole,
        Op::Umin => Sizes::Whole,
        Op::Umax => Sizes::Whole,
        Op::UaddCarry => Sizes::Whole,
        Op::UsubBorrow => Sizes::Whole,
        Op::IaddSat => Sizes::Whole,
        Op::IsubSat => Sizes::Whole,
        Op::UaddSat => Sizes::Whole,
        Op::UsubSat => Sizes::Whole,
        Op::Uhadd => Sizes::Whole,
        Op::Ihadd => Sizes::Whole,
        Op::Urhadd => Sizes::Whole,
        Op::Irhadd => Sizes::Whole,
        Op::UabsIsub => Sizes::Whole,
        Op::UabsUsub => Sizes::Whole,
        Op::ImulHigh => Sizes::Whole,
        Op::UmulHigh => Sizes::Whole,
        Op::Imul2x32_64 => Sizes::Fixed,
        Op::Umul2x32_64 => Sizes::Fixed,
        Op::BitCount => Sizes::Whole,
        Op::UfindMsb => Sizes::Whole,
        Op::FindLsb => Sizes::Whole,
        Op::IfindMsb => Sizes::Fixed,
        Op::BitfieldReverse => Sizes::Fixed,
        Op::Bfm => Sizes::Fixed,
        Op::Bfi => Sizes::Fixed,
        Op::Ubfe => Sizes::Fixed,
        Op::Ibfe => Sizes::Fixed,
        Op::BitfieldSelect => Sizes::Whole,
        Op::I2i8 => Sizes::Whole,
        Op::I2i16 => Sizes::Whole,
        Op::I2i32 => Sizes::Whole,
        Op::I2i64 => Sizes::Whole,
        Op::U2u8 => Sizes::Whole,
        Op::U2u16 => Sizes::Whole,
        Op::U2u32 => Sizes::Whole,
        Op::U2u64 => Sizes::Whole,
        Op::B2i8 => Sizes::Fixed,
        Op::B2i16 => Sizes::Fixed,
        Op::B2i32 => Sizes::Fixed,
        Op::B2i64 => Sizes::Fixed,
        Op::Pack64_2x32Split => Sizes::Fixed,
        Op::Unpack64_2x32SplitX => Sizes::Fixed,
        Op::Unpack64_2x32SplitY => Sizes::Fixed,
        Op::Pack32_2x16Split => Sizes::Fixed,
        Op::Unpack32_2x16SplitX => Sizes::Fixed,
        Op::Unpack32_2x16SplitY => Sizes::Fixed,
        Op::ExtractU8 => Sizes::Whole,
        Op::ExtractU16 => Sizes::Whole,
        Op::ExtractI8 => Sizes::Whole,
        Op::ExtractI16 => Sizes::Whole,
        Op::Mov => Sizes::Every,
        Op::Vec2 => Sizes::Every,
        Op::Vec3 => Sizes::Every,
        Op::Vec4 => Sizes::Every,
        Op::BallIequal2 => Sizes::Every,
        Op::BallIequal3 => Sizes::Every,
        Op::BallIequal4 => Sizes::Every,
        Op::BanyInequal2 => Sizes::Every,
        Op::BanyInequal3 => Sizes::Every,
        Op::BanyInequal4 => Sizes::Every,
    }
}

fn kind(base: Base, size: Option<Width>) -> OpType
    ensures { result ≡ type_at base size }
{
    match size {
        None => OpType { base, size },
        Some(W1) => OpType {
            base: Base::Bool,
            size,
        },
        Some(W8) => OpType { base, size },
        Some(W16) => OpType { base, size },
        Some(W32) => OpType { base, size },
        Some(W64) => OpType { base, size },
    }
}

fn source(base: Base, count: u8, size: Option<Width>) -> OpInput
    ensures { result ≡ source_at base count size }
{
    OpInput {
        count,
        kind: kind(base, size),
    }
}

/// A row of one source, component by component, without marks.
fn unary(base: Base, first: Option<Width>, out: Option<Width>) -> OpInfo
    ensures { result ≡ record { out_count = 0; out = type_at base out; inputs = map (source_at base 0) (first ∷ []); props = none } }
{
    let mut inputs = Inputs::new();
    inputs.push(source(base, 0, first));
    OpInfo {
        out_count: 0,
        out: kind(base, out),
        inputs,
        props: Props::NONE,
    }
}

/// A row of two sources, component by component.
fn binary(
    base: Base,
    first: Option<Width>,
    second: Option<Width>,
    out: Option<Width>,
    props: Props,
) -> OpInfo
    ensures { result ≡ record { out_count = 0; out = type_at base out; inputs = map (source_at base 0) (first ∷ second ∷ []); props = props } }
{
    let mut inputs = Inputs::new();
    inputs.push(source(base, 0, first));
    inputs.push(source(base, 0, second));
    OpInfo {
        out_count: 0,
        out: kind(base, out),
        inputs,
        props,
    }
}

/// A row of three sources, component by component, without marks.
fn ternary(
    base: Base,
    first: Option<Width>,
    second: Option<Width>,
    third: Option<Width>,
    out: Option<Width>,
) -> OpInfo
    ensures { result ≡ record { out_count = 0; out = type_at base out; inputs = map (source_at base 0) (first ∷ second ∷ third ∷ []); props = none } }
{
    let mut inputs = Inputs::new();
    inputs.push(source(base, 0, first));
    inputs.push(source(base, 0, second));
    inputs.push(source(base, 0, third));
    OpInfo {
        out_count: 0,
        out: kind(base, out),
        inputs,
        props: Props::NONE,
    }
}

/// The row of an opcode that gathers so many sources of one component.
fn gather(count: u8) -> OpInfo
    requires { count ≤ 16 }
    ensures { result ≡ record { out_count = count; out = type_at Base.Uint u; inputs = replicate count (source_at Base.Uint 1 u); props = none } }
{
    let mut inputs = Inputs::new();
    for _at in 0..count {
        inputs.push(source(Uint, 1, None));
    }
    OpInfo {
        out_count: count,
        out: kind(Uint, None),
        inputs,
        props: Props::NONE,
    }
}

/// The row of an opcode that makes one truth value of two sources of so many components.
fn reduce(count: u8) -> OpInfo
    ensures { result ≡ record { out_count = 1; out = type_at Base.Uint n1; inputs = source_at Base.Uint count u ∷ source_at Base.Uint count u ∷ []; props = commutative } }
{
    let mut inputs = Inputs::new();
    inputs.push(source(Uint, count, None));
    inputs.push(source(Uint, count, None));
    OpInfo {
        out_count: 1,
        out: kind(Uint, Some(W1)),
        inputs,
        props: Props::COMMUTATIVE,
    }
}
