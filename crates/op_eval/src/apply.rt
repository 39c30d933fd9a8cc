//! One component of each opcode.

ghost use Rattle.std.specs.Prelude.{◌≡◌, ◌<◌, ◌^◌, true, slice_get};
ghost use Rattle.nir_ops.specs.Width.{width_bits};
ghost use Rattle.nir_ops.specs.Opcodes.{op_allows};
ghost use Rattle.op_eval.specs.Calls.{bits_of, per_component, result_width, source_widths};
ghost use Rattle.op_eval.specs.Meaning.{meaning};
ghost use Rattle.op_eval.specs.Word.{residue};

use crate::compare::{bcsel, ieq, ige, ilt, imax, imin, ine, uge, ult, umax, umin};
use crate::convert::{
    i2i, mov, pack_32_2x16_split, pack_64_2x32_split, u2u, unpack_32_2x16_split_x,
    unpack_32_2x16_split_y, unpack_64_2x32_split_x, unpack_64_2x32_split_y,
};
use crate::divide::{idiv, imod, irem, udiv, umod};
use crate::extract::{extract_i8, extract_i16, extract_u8, extract_u16};
use crate::field::{bfi, bfm, ibfe, ubfe};
use crate::find::{bit_count, bitfield_reverse, find_lsb, ifind_msb, ufind_msb};
use crate::half::{ihadd, irhadd, uhadd, urhadd};
use crate::product::{imul_2x32_64, imul_high, umul_2x32_64, umul_high};
use crate::saturate::{
    iadd_sat, isub_sat, uabs_isub, uabs_usub, uadd_carry, uadd_sat, usub_borrow, usub_sat,
};
use crate::shift::{ishl, ishr, urol, uror, ushr};
use crate::whole::{bitfield_select, iabs, iadd, iand, imul, ineg, inot, ior, isub, ixor};
use nir_ops::{Op, Width};

/// The word that the opcode makes of its sources at an unsized bit size; a source that it does not have is 0.
#[tactic(auto, unfolding(nir_ops::specs::Opcodes::op_allows, nir_ops::specs::Opcodes::op_info, nir_ops::specs::Opcodes::row_of, crate::specs::Calls::per_component, crate::specs::Calls::result_width, crate::specs::Calls::source_widths, crate::specs::Meaning::meaning))]
pub fn apply(op: Op, width: Width, x: u64, y: u64, z: u64) -> u64
    requires each { per_component op ≡ true }
    requires allowed { op_allows op width ≡ true }
    requires x { x < 2 ^ bits_of (slice_get (source_widths op width) 0) }
    requires y { y < 2 ^ bits_of (slice_get (source_widths op width) 1) }
    requires z { z < 2 ^ bits_of (slice_get (source_widths op width) 2) }
    ensures { result ≡ residue (width_bits (result_width op width)) (meaning op (width_bits width) x y z) }
{
    match op {
        Op::Iadd => iadd(width, x, y),
        Op::Isub => isub(width, x, y),
        Op::Imul => imul(width, x, y),
        Op::Ineg => ineg(width, x),
        Op::Iabs => iabs(width, x),
        Op::Idiv => idiv(width, x, y),
        Op::Udiv => udiv(width, x, y),
        Op::Irem => irem(width, x, y),
        Op::Imod => imod(width, x, y),
        Op::Umod => umod(width, x, y),
        Op::Ishl => ishl(width, x, y),
        Op::Ishr => ishr(width, x, y),
        Op::Ushr => ushr(width, x, y),
        Op::Urol => urol(width, x, y),
        Op::Uror => uror(width, x, y),
        Op::Inot => inot(width, x),
        Op::Iand => iand(width, x, y),
        Op::Ior => ior(width, x, y),
        Op::Ixor => ixor(width, x, y),
        Op::Ilt => ilt(width, x, y),
        Op::Ige => ige(width, x, y),
        Op::Ult => ult(x, y),
        Op::Uge => uge(x, y),
        Op::Ieq => ieq(x, y),
        Op::Ine => ine(x, y),
        Op::Bcsel => bcsel(width, x, y, z),
        Op::Imin => imin(width, x, y),
        Op::Imax => imax(width, x, y),
        Op::Umin => umin(width, x, y),
        Op::Umax => umax(width, x, y),
        Op::UaddCarry => uadd_carry(width, x, y),
        Op::UsubBorrow => usub_borrow(width, x, y),
        Op::IaddSat => iadd_sat(width, x, y),
        Op::IsubSat => isub_sat(width, x, y),
        Op::UaddSat => uadd_sat(width, x, y),
        Op::UsubSat => usub_sat(width, x, y),
        Op::Uhadd => uhadd(width, x, y),
        Op::Ihadd => ihadd(width, x, y),
        Op::Urhadd => urhadd(width, x, y),
        Op::Irhadd => irhadd(width, x, y),
        Op::UabsIsub => uabs_isub(width, x, y),
        Op::UabsUsub => uabs_usub(width, x, y),
        Op::ImulHigh => imul_high(width, x, y),
        Op::UmulHigh => umul_high(width, x, y),
        Op::Imul2x32_64 => imul_2x32_64(x, y),
        Op::Umul2x32_64 => umul_2x32_64(x, y),
        Op::BitCount => bit_count(x),
        Op::UfindMsb => ufind_msb(x),
        Op::FindLsb => find_lsb(x),
        Op::IfindMsb => ifind_msb(x),
        Op::BitfieldReverse => bitfield_reverse(x),
        Op::Bfm => bfm(x, y),
        Op::Bfi => bfi(x, y, z),
        Op::Ubfe => ubfe(x, y, z),
        Op::Ibfe => ibfe(x, y, z),
        Op::BitfieldSelect => bitfield_select(width, x, y, z),
        Op::I2i8 => i2i(width, Width::W8, x),
        Op::I2i16 => i2i(width, Width::W16, x),
        Op::I2i32 => i2i(width, Width::W32, x),
        Op::I2i64 => i2i(width, Width::W64, x),
        Op::U2u8 => u2u(Width::W8, x),
        Op::U2u16 => u2u(Width::W16, x),
        Op::U2u32 => u2u(Width::W32, x),
        Op::U2u64 => u2u(Width::W64, x),
        Op::B2i8 => mov(Width::W8, x),
        Op::B2i16 => mov(Width::W16, x),
        Op::B2i32 => mov(Width::W32, x),
        Op::B2i64 => mov(Width::W64, x),
        Op::Pack64_2x32Split => pack_64_2x32_split(x, y),
        Op::Unpack64_2x32SplitX => unpack_64_2x32_split_x(x),
        Op::Unpack64_2x32SplitY => unpack_64_2x32_split_y(x),
        Op::Pack32_2x16Split => pack_32_2x16_split(x, y),
        Op::Unpack32_2x16SplitX => unpack_32_2x16_split_x(x),
        Op::Unpack32_2x16SplitY => unpack_32_2x16_split_y(x),
        Op::ExtractU8 => extract_u8(width, x, y),
        Op::ExtractU16 => extract_u16(width, x, y),
        Op::ExtractI8 => extract_i8(width, x, y),
        Op::ExtractI16 => extract_i16(width, x, y),
        Op::Mov => mov(width, x),
        Op::Vec2 => 0,
        Op::Vec3 => 0,
        Op::Vec4 => 0,
        Op::BallIequal2 => 0,
        Op::BallIequal3 => 0,
        Op::BallIequal4 => 0,
        Op::BanyInequal2 => 0,
        Op::BanyInequal3 => 0,
        Op::BanyInequal4 => 0,
    }
}
