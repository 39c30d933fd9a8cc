//! Texts of rule files, and what is read of them.

use crate::shown_rules::show_file;
use rule_read::read_rules;
use std::test::Fail;

/// Rules in a free layout, with a comment at the end of a line; two lines begin with a tab.
const BOTH_ORDERS: &str = "[ # both orders
\t((iadd,a,b,),(iadd,b,a,),) , # a comment, with , and ]
\t((ineg, (ineg, x)), x), by * cases, by
*
cases,
]
";

/// Evidence of each kind, weights anywhere, trailing commas and comments.
const WHOLE: &str = r"# Weights stand anywhere, and name what gathers components too.
[
  weight iadd 2, weight vec2 0,
  (('iadd', 'a@8', 0,), 'a', 'options->lower && !options->keep',), # in a comment ' and ( and ] say nothing
  by * cases,
  by 1 derive [(3, [])],
  weight umul_high 60,
  by 4294967295 log [([], [])],
  (('imul(is_used_once)', a, '#b(is_pos_power_of_two)'), ('ishl@32', a, ('find_lsb', b))),
  by 2 derive [(15, [0, 1], rev), (calc, [1], 18446744073709551615)],
  by * log [([1, -2], [3]), ([2147483647, -2147483648], [4294967295, 0])],
]
";

/// Texts of rule files, and what is read.
static READ: &[(&str, &str)] = &[
    ("[]", "weights:"),
    (" [ # none\n ] # at all", "weights:"),
    (
        "[(('iadd', 'a@8', 0), 'a'), by * cases]",
        "0 of 1: Iadd ( v0@W8 0 ) -> v0 always; by all cases; weights:",
    ),
    (
        BOTH_ORDERS,
        "0 of 2: Iadd ( v0 v1 ) -> Iadd ( v1 v0 ) always; 1 of 1: Ineg ( Ineg ( v0 ) ) -> v0 always; by all cases; by all cases; weights:",
    ),
    (
        "[((\"iadd@8(is_used_once)\", \"#a(is_pos_power_of_two)\", -1), ('isub@16', \"a\", 0xff))]",
        "0 of 1: Iadd@W8 once ( v0# PosPow2 -1 ) -> Isub@W16 ( v0 255 ) always; weights:",
    ),
    (
        "[((bcsel, 'True', True, (ior, False, 'True')), 'True')]",
        "0 of 1: Bcsel ( v0 bool1 Ior ( bool0 v0 ) ) -> v0 always; weights:",
    ),
    (
        "[((imul, '#a@1(is_neg_power_of_two)', (imul, 'b@32(is_unsigned_multiple_of_4)', \
            (imul, 'a@64(is_upper_half_zero)', (imul, 'c(is_lower_half_zero)', (imul, '#b(is_not_const)', '_9(is_used_once)'))))), (iadd, _9, b))]",
        "0 of 4: Imul ( v0#@W1 NegPow2 Imul ( v1@W32 MultipleOf4 \
            Imul ( v0@W64 UpperHalfZero Imul ( v2 LowerHalfZero Imul ( v1# NotConst v3 UsedOnce ) ) ) ) ) -> Iadd ( v3 v1 ) always; weights:",
    ),
    (
        "[((iadd, 18446744073709551615, (imul, -9223372036854775808, by)), by), ]",
        "0 of 1: Iadd ( 18446744073709551615 Imul ( -9223372036854775808 v0 ) ) -> v0 always; weights:",
    ),
    // Files of items of all sorts. A line of evidence belongs to the last rule before it, also where a weight stands between.
    (
        WHOLE,
        "0 of 1: Iadd ( v0@W8 0 ) -> v0 where both ( lower not keep ); by all cases; by 1 derive law 3 [ ]; by 4294967295 log [ ] [ ]; \
            1 of 2: Imul once ( v0 v1# PosPow2 ) -> Ishl@W32 ( v0 FindLsb ( v1 ) ) always; by 2 derive law 15 [ 0 1 ] rev calc [ 1 ] 18446744073709551615; \
            by all log [ 1 -2 ] [ 3 ] [ 2147483647 -2147483648 ] [ 4294967295 0 ]; weights: Iadd 2 Vec2 0 UmulHigh 60",
    ),
    (
        "[weight iadd 0, weight ball_iequal2 60,]",
        "weights: Iadd 0 BallIequal2 60",
    ),
    (
        "[((ineg, a), a), weight iadd 1, by 0 cases, ((inot, b), b), by 2 cases, by 2 cases]",
        "0 of 1: Ineg ( v0 ) -> v0 always; by 0 cases; 1 of 1: Inot ( v0 ) -> v0 always; by 2 cases; by 2 cases; weights: Iadd 1",
    ),
    (
        "[((ineg, a), a), ((ineg, b), b), by * cases]",
        "0 of 1: Ineg ( v0 ) -> v0 always; 1 of 1: Ineg ( v0 ) -> v0 always; by all cases; weights:",
    ),
    // Options, in quotes of both kinds, and a comma with none.
    (
        "[((ineg, a), a, 'options->a'), ((ineg, a), a, \"options->a\",), ((ineg, a), a,)]",
        "0 of 1: Ineg ( v0 ) -> v0 where a; 1 of 1: Ineg ( v0 ) -> v0 where a; 2 of 1: Ineg ( v0 ) -> v0 always; weights:",
    ),
    // Steps, none of which have to make sense.
    (
        "[((iadd, a, b), (iadd, b, a)), by * derive [], by * derive [(1, []), (4294967295, [4294967295, 0])], by 0 log []]",
        "0 of 2: Iadd ( v0 v1 ) -> Iadd ( v1 v0 ) always; by all derive; by all derive law 1 [ ] law 4294967295 [ 4294967295 0 ]; by 0 log; weights:",
    ),
    // `rev` behind the path is the mark, but the name of a binding where `=` follows.
    (
        "[((imul, a, b), a), by * derive [(7, [], rev), (7, [], rev, rev = b, y = True), (7, [], rev = a, z = 0), (7, [], x = a, rev = b)]]",
        "0 of 2: Imul ( v0 v1 ) -> v0 always; \
            by all derive law 7 [ ] rev law 7 [ ] rev rev = v1 y = bool1 law 7 [ ] rev = v0 z = 0 law 7 [ ] x = v0 rev = v1; weights:",
    ),
    (
        "[((imul, a, b), a), by * derive [(2, [1], y = (iadd, 'b', -9223372036854775808)), (calc, [0, 1], ('iadd@8', 1, False))]]",
        "0 of 2: Imul ( v0 v1 ) -> v0 always; \
            by all derive law 2 [ 1 ] y = Iadd ( v1 -9223372036854775808 ) calc [ 0 1 ] Iadd@W8 ( 1 bool0 ); weights:",
    ),
    // The words of a file are names too.
    (
        "[((ineg, weight), weight), by * derive [(5, [], calc = weight, log = 1)], ((ineg, rev), rev)]",
        "0 of 1: Ineg ( v0 ) -> v0 always; by all derive law 5 [ ] calc = v0 log = 1; 1 of 1: Ineg ( v0 ) -> v0 always; weights:",
    ),
];

#[test]
fn rules_are_read(rt: HostRuntime) -> Result<(), Fail> {
    for &(text, wanted) in READ {
        let file = read_rules(rt.alloc(), text.as_bytes())?;
        let shown = show_file(rt.alloc(), &file)?;
        assert_eq!(rt; shown.as_str(), wanted, "{text}");
    }
    Ok(())
}
