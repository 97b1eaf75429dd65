//! The texts of types, operators and abbreviations.

use crate::node::{LiteralForm, Node, Qualifier, Wrapper};

/// Returns the builtin type of a letter.
pub(crate) fn builtin_type(letter: u8) -> Option<Node> {
    let (text, form) = match letter {
        b'a' => ("signed char", LiteralForm::Cast),
        b'b' => ("bool", LiteralForm::Bool),
        b'c' => ("char", LiteralForm::Cast),
        b'd' => ("double", LiteralForm::Float),
        b'e' => ("long double", LiteralForm::Float),
        b'f' => ("float", LiteralForm::Float),
        b'g' => ("__float128", LiteralForm::Float),
        b'h' => ("unsigned char", LiteralForm::Cast),
        b'i' => ("int", LiteralForm::Number("")),
        b'j' => ("unsigned int", LiteralForm::Number("u")),
        b'l' => ("long", LiteralForm::Number("l")),
        b'm' => ("unsigned long", LiteralForm::Number("ul")),
        b'n' => ("__int128", LiteralForm::Cast),
        b'o' => ("unsigned __int128", LiteralForm::Cast),
        b's' => ("short", LiteralForm::Cast),
        b't' => ("unsigned short", LiteralForm::Cast),
        b'v' => ("void", LiteralForm::Cast),
        b'w' => ("wchar_t", LiteralForm::Cast),
        b'x' => ("long long", LiteralForm::Number("ll")),
        b'y' => ("unsigned long long", LiteralForm::Number("ull")),
        b'z' => ("...", LiteralForm::Cast),
        _ => return None,
    };
    Some(Node::Builtin(text, form))
}

/// Returns the builtin type of a letter after `D`.
pub(crate) fn extended_type(letter: u8) -> Option<Node> {
    let text = match letter {
        b'a' => return Some(Node::Word("auto")),
        b'c' => return Some(Node::Word("decltype(auto)")),
        b'd' => "decimal64",
        b'e' => "decimal128",
        b'f' => "decimal32",
        b'h' => "half",
        b'i' => "char32_t",
        b'n' => "decltype(nullptr)",
        b's' => "char16_t",
        b'u' => "char8_t",
        _ => return None,
    };
    Some(Node::Builtin(text, LiteralForm::Cast))
}

/// Returns the abbreviated class of a letter after `S`, written out in full if it is the scope of a
/// constructor or destructor.
pub(crate) fn standard_class(letter: u8, is_full: bool) -> Option<Node> {
    let (text, name) = match (letter, is_full) {
        (b'a', _) => ("std::allocator", "allocator"),
        (b'b', _) => ("std::basic_string", "basic_string"),
        (b's', false) => ("std::string", "string"),
        (b'i', false) => ("std::istream", "istream"),
        (b'o', false) => ("std::ostream", "ostream"),
        (b'd', false) => ("std::iostream", "iostream"),
        (b's', true) => (
            "std::basic_string<char, std::char_traits<char>, std::allocator<char> >",
            "basic_string",
        ),
        (b'i', true) => (
            "std::basic_istream<char, std::char_traits<char> >",
            "basic_istream",
        ),
        (b'o', true) => (
            "std::basic_ostream<char, std::char_traits<char> >",
            "basic_ostream",
        ),
        (b'd', true) => (
            "std::basic_iostream<char, std::char_traits<char> >",
            "basic_iostream",
        ),
        _ => return None,
    };
    Some(Node::Standard(text, name))
}

// The operators: the two letters, the text, and the number of operands in an expression.
const OPERATORS: [(&[u8; 2], &str, u8); 58] = [
    (b"aN", "&=", 2),
    (b"aS", "=", 2),
    (b"aa", "&&", 2),
    (b"ad", "&", 1),
    (b"an", "&", 2),
    (b"at", "alignof ", 1),
    (b"aw", "co_await ", 1),
    (b"az", "alignof ", 1),
    (b"cl", "()", 2),
    (b"cm", ",", 2),
    (b"co", "~", 1),
    (b"dV", "/=", 2),
    (b"da", "delete[] ", 1),
    (b"de", "*", 1),
    (b"dl", "delete ", 1),
    (b"ds", ".*", 2),
    (b"dt", ".", 2),
    (b"dv", "/", 2),
    (b"eO", "^=", 2),
    (b"eo", "^", 2),
    (b"eq", "==", 2),
    (b"ge", ">=", 2),
    (b"gs", "::", 1),
    (b"gt", ">", 2),
    (b"ix", "[]", 2),
    (b"lS", "<<=", 2),
    (b"le", "<=", 2),
    (b"ls", "<<", 2),
    (b"lt", "<", 2),
    (b"mI", "-=", 2),
    (b"mL", "*=", 2),
    (b"mi", "-", 2),
    (b"ml", "*", 2),
    (b"mm", "--", 1),
    (b"na", "new[]", 3),
    (b"ne", "!=", 2),
    (b"ng", "-", 1),
    (b"nt", "!", 1),
    (b"nw", "new", 3),
    (b"oR", "|=", 2),
    (b"oo", "||", 2),
    (b"or", "|", 2),
    (b"pL", "+=", 2),
    (b"pl", "+", 2),
    (b"pm", "->*", 2),
    (b"pp", "++", 1),
    (b"ps", "+", 1),
    (b"pt", "->", 2),
    (b"qu", "?", 3),
    (b"rM", "%=", 2),
    (b"rS", ">>=", 2),
    (b"rm", "%", 2),
    (b"rs", ">>", 2),
    (b"ss", "<=>", 2),
    (b"st", "sizeof ", 1),
    (b"sz", "sizeof ", 1),
    (b"te", "typeid ", 1),
    (b"tw", "throw ", 1),
];

/// Returns the text of an operator, and the number of its operands in an expression.
pub(crate) fn find_operator(first: u8, second: u8) -> Option<(&'static str, u8)> {
    for (letters, text, operands) in OPERATORS {
        if letters[0] == first && letters[1] == second {
            return Some((text, operands));
        }
    }
    None
}

/// Returns the text of an operator.
pub(crate) fn operator_text(first: u8, second: u8) -> Option<&'static str> {
    let (text, _) = find_operator(first, second)?;
    Some(text)
}

/// Returns the name of a conversion with a letter before `c`.
pub(crate) fn named_cast(letter: u8) -> Option<&'static str> {
    match letter {
        b's' => Some("static_cast"),
        b'c' => Some("const_cast"),
        b'd' => Some("dynamic_cast"),
        b'r' => Some("reinterpret_cast"),
        _ => None,
    }
}

/// Returns what is before the type of a special name with a letter after `T`.
pub(crate) fn special_of_type(letter: u8) -> Option<&'static str> {
    match letter {
        b'V' => Some("vtable for "),
        b'T' => Some("VTT for "),
        b'I' => Some("typeinfo for "),
        b'S' => Some("typeinfo name for "),
        b'F' => Some("typeinfo fn for "),
        _ => None,
    }
}

/// Returns the wrapper of a letter.
pub(crate) fn find_wrapper(letter: u8) -> Option<Wrapper> {
    match letter {
        b'P' => Some(Wrapper::Pointer),
        b'R' => Some(Wrapper::Reference),
        b'O' => Some(Wrapper::RvalueReference),
        b'C' => Some(Wrapper::Complex),
        b'G' => Some(Wrapper::Imaginary),
        _ => None,
    }
}

/// Returns the text of a wrapper.
pub(crate) fn wrapper_text(wrapper: Wrapper) -> &'static str {
    match wrapper {
        Wrapper::Pointer => "*",
        Wrapper::Reference => "&",
        Wrapper::RvalueReference => "&&",
        Wrapper::Complex => " _Complex",
        Wrapper::Imaginary => " _Imaginary",
    }
}

/// Returns the qualifier of a letter.
pub(crate) fn find_qualifier(letter: u8) -> Option<Qualifier> {
    match letter {
        b'r' => Some(Qualifier::Restrict),
        b'V' => Some(Qualifier::Volatile),
        b'K' => Some(Qualifier::Const),
        _ => None,
    }
}

/// Returns the qualifier of a letter after `D`.
pub(crate) fn find_function_qualifier(letter: u8) -> Option<Qualifier> {
    match letter {
        b'x' => Some(Qualifier::TransactionSafe),
        b'o' => Some(Qualifier::Noexcept),
        _ => None,
    }
}

/// Returns the text of a qualifier.
pub(crate) fn qualifier_text(qualifier: Qualifier) -> &'static str {
    match qualifier {
        Qualifier::Const => " const",
        Qualifier::Volatile => " volatile",
        Qualifier::Restrict => " restrict",
        Qualifier::Reference => " &",
        Qualifier::RvalueReference => " &&",
        Qualifier::TransactionSafe => " transaction_safe",
        Qualifier::Noexcept => " noexcept",
        Qualifier::NoexceptIf(_) => " noexcept(",
        Qualifier::Throw(_) => " throw(",
    }
}
