//! How each opcode works on lists of components.

ghost use Rattle.std.specs.Prelude.{◌≡◌};
ghost use Rattle.op_eval.specs.Views.{shape_of};

use nir_ops::Op;

/// How an opcode works on lists of components.
#[derive(Clone, Copy, Debug, PartialEq, Eq)]
pub enum Shape {
    /// Place by place.
    EachPlace,
    /// Component i is the component of source i.
    Gathers,
    /// 1 where the two lists are equal, else 0.
    AllEqual,
    /// 1 where the two lists differ, else 0.
    SomeDiffer,
}

#[tactic(auto, unfolding(crate::specs::Views::shape_of))]
pub fn shape_on_lists(op: Op) -> Shape
    ensures { result ≡ shape_of op }
{
    match op {
        Op::Iadd => Shape::EachPlace,
        Op::Isub => Shape::EachPlace,
        Op::Imul => Shape::EachPlace,
        Op::Ineg => Shape::EachPlace,
        Op::Iabs => Shape::EachPlace,
        Op::Idiv => Shape::EachPlace,
        Op::Udiv => Shape::EachPlace,
        Op::Irem => Shape::EachPlace,
        Op::Imod => Shape::EachPlace,
        Op::Umod => Shape::EachPlace,
        Op::Ishl => Shape::EachPlace,
        Op::Ishr => Shape::EachPlace,
        Op::Ushr => Shape::EachPlace,
        Op::Urol => Shape::EachPlace,
        Op::Uror => Shape::EachPlace,
        Op::Inot => Shape::EachPlace,
        Op::Iand => Shape::EachPlace,
        Op::Ior => Shape::EachPlace,
        Op::Ixor => Shape::EachPlace,
        Op::Ilt => Shape::EachPlace,
        Op::Ige => Shape::EachPlace,
        Op::Ult => Shape::EachPlace,
        Op::Uge => Shape::EachPlace,
        Op::Ieq => Shape::EachPlace,
        Op::Ine => Shape::EachPlace,
        Op::Bcsel => Shape::EachPlace,
        Op::Imin => Shape::EachPlace,
        Op::Imax => Shape::EachPlace,
        Op::Umin => Shape::EachPlace,
        Op::Umax => Shape::EachPlace,
        Op::UaddCarry => Shape::EachPlace,
        Op::UsubBorrow => Shape::EachPlace,
        Op::IaddSat => Shape::EachPlace,
        Op::IsubSat => Shape::EachPlace,
        Op::UaddSat => Shape::EachPlace,
        Op::UsubSat => Shape::EachPlace,
        Op::Uhadd => Shape::EachPlace,
        Op::Ihadd => Shape::EachPlace,
        Op::Urhadd => Shape::EachPlace,
        Op::Irhadd => Shape::EachPlace,
        Op::UabsIsub => Shape::EachPlace,
        Op::UabsUsub => Shape::EachPlace,
        Op::ImulHigh => Shape::EachPlace,
        Op::UmulHigh => Shape::EachPlace,
        Op::Imul2x32_64 => Shape::EachPlace,
        Op::Umul2x32_64 => Shape::EachPlace,
        Op::BitCount => Shape::EachPlace,
        Op::UfindMsb => Shape::EachPlace,
        Op::FindLsb => Shape::EachPlace,
        Op::IfindMsb => Shape::EachPlace,
        Op::BitfieldReverse => Shape::EachPlace,
        Op::Bfm => Shape::EachPlace,
        Op::Bfi => Shape::EachPlace,
        Op::Ubfe => Shape::EachPlace,
        Op::Ibfe => Shape::EachPlace,
        Op::BitfieldSelect => Shape::EachPlace,
        Op::I2i8 => Shape::EachPlace,
        Op::I2i16 => Shape::EachPlace,
        Op::I2i32 => Shape::EachPlace,
        Op::I2i64 => Shape::EachPlace,
        Op::U2u8 => Shape::EachPlace,
        Op::U2u16 => Shape::EachPlace,
        Op::U2u32 => Shape::EachPlace,
        Op::U2u64 => Shape::EachPlace,
        Op::B2i8 => Shape::EachPlace,
        Op::B2i16 => Shape::EachPlace,
        Op::B2i32 => Shape::EachPlace,
        Op::B2i64 => Shape::EachPlace,
        Op::Pack64_2x32Split => Shape::EachPlace,
        Op::Unpack64_2x32SplitX => Shape::EachPlace,
        Op::Unpack64_2x32SplitY => Shape::EachPlace,
        Op::Pack32_2x16Split => Shape::EachPlace,
        Op::Unpack32_2x16SplitX => Shape::EachPlace,
        Op::Unpack32_2x16SplitY => Shape::EachPlace,
        Op::ExtractU8 => Shape::EachPlace,
        Op::ExtractU16 => Shape::EachPlace,
        Op::ExtractI8 => Shape::EachPlace,
        Op::ExtractI16 => Shape::EachPlace,
        Op::Mov => Shape::EachPlace,
        Op::Vec2 => Shape::Gathers,
        Op::Vec3 => Shape::Gathers,
        Op::Vec4 => Shape::Gathers,
        Op::BallIequal2 => Shape::AllEqual,
        Op::BallIequal3 => Shape::AllEqual,
        Op::BallIequal4 => Shape::AllEqual,
        Op::BanyInequal2 => Shape::SomeDiffer,
        Op::BanyInequal3 => Shape::SomeDiffer,
        Op::BanyInequal4 => Shape::SomeDiffer,
    }
}
