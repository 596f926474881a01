//! Laws by example: the values of some texts by the definitions.
ghost use Rattle.std.specs.Prelude.{codes, neg_ℤ, pos};
ghost use Rattle.sh_arith.specs.Shown.{Comes, ComesWith, ComesWithout, IsRefusedAt};

/// Law by example: operators of one level group from the left, and `?:` groups from the right.
pub fn operators_group_as_in_c()
    ensures difference { Comes (codes "10-3-2") (pos 5) }
    ensures quotient { Comes (codes "100/10/5") (pos 2) }
    ensures shift { Comes (codes "1<<2<<3") (pos 32) }
    ensures choice { Comes (codes "1?0:0?2:3") (pos 0) }
{}

/// Law by example: operators bind tighter or looser than others as in C.
pub fn operators_bind_as_in_c()
    ensures choice { Comes (codes "0||1?2:3") (pos 2) }
    ensures either { Comes (codes "1||1&&0") (pos 1) }
    ensures both { Comes (codes "2|1&&0") (pos 0) }
    ensures or { Comes (codes "3|1^1") (pos 3) }
    ensures xor { Comes (codes "1^1&0") (pos 1) }
    ensures and { Comes (codes "2&2==2") (pos 0) }
    ensures equal { Comes (codes "0==1<2") (pos 0) }
    ensures less { Comes (codes "1<1<<1") (pos 1) }
    ensures shift { Comes (codes "1+2<<3") (pos 24) }
    ensures sum { Comes (codes "2+3*4") (pos 14) }
    ensures product { Comes (codes "!0*2") (pos 2) }
    ensures sign { Comes (codes "-2^63") (neg_ℤ (pos 63)) }
    ensures parentheses { Comes (codes "(2+3)*4") (pos 20) }
{}

/// Law by example: operators are spelled as in C, the longest first. What can't follow is refused at its
/// place.
pub fn operators_are_spelled_as_in_c()
    ensures right { Comes (codes "8>>1") (pos 4) }
    ensures left { Comes (codes "8<<1") (pos 16) }
    ensures at_least { ComesWith (codes "a") (codes "b") (codes "2") (codes "1") (codes "a>=b")
        (pos 1) }
    ensures less { ComesWith (codes "a") (codes "b") (codes "2") (codes "1") (codes "a<b") (pos 0) }
    ensures unset { ComesWithout (codes "a") (codes "b") (codes "a>=b") (pos 1) }
    ensures unknown { IsRefusedAt (codes "(1@") 2 }
    ensures turned { IsRefusedAt (codes "1=>1") 1 }
{}
