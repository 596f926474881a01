//! The utility `[` (XCU test).
ghost use Rattle.std.specs.Prelude.{◌≡◌, option_map};
ghost use Rattle.sh_builtin_regular.specs.Brackets.{bracket_operands};

use sh_base::sequence::Text;

/// The operands of the utility `[`, for which its last argument has to be `]` (XCU test); `None` where it isn't. Takes no memory.
pub fn bracket_operands(arguments: &[Text]) -> Option<&[Text]>
    ensures { option_map (λ operands. operands.now) result ≡ bracket_operands arguments.now }
{
    match arguments.split_last() {
        Some((last, operands)) => {
            if last.as_slice() == b"]".as_slice() {
                return Some(operands);
            }
            None
        },
        None => None,
    }
}
