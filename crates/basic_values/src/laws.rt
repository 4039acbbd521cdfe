//! Laws about the definitions of this crate. Each is the contract of a function with an empty body.

ghost use Rattle.basic_values.specs.Laws.{WrapIsTheOne, WrapPassesSums, WrapPassesProducts};
ghost use Rattle.basic_values.specs.Laws.{DivisionTruncates, BitsGoByPlace, OrdersTexts};

/// States that the wrapped number is the only one in range that differs by a multiple of 65536.
pub fn wrap_is_the_one()
    ensures { WrapIsTheOne }
{}

/// States that a wrapped sum is the same whether its parts are wrapped before or not.
pub fn wrap_passes_sums()
    ensures { WrapPassesSums }
{}

/// States that a wrapped product is the same whether its factors are wrapped before or not.
pub fn wrap_passes_products()
    ensures { WrapPassesProducts }
{}

/// States that a quotient drops its fraction, so the remainder has the sign of the dividend.
pub fn division_truncates()
    ensures { DivisionTruncates }
{}

/// States that the operators on bits treat each bit by itself.
pub fn bits_go_by_place()
    ensures { BitsGoByPlace }
{}

/// States that `compare` is a total order of strings, in which two are equal exactly if they are
/// the same after padding.
pub fn texts_are_ordered()
    ensures { OrdersTexts }
{}
