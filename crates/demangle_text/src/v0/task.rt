//! What the reader of v0 names still has to do.

// A list, which ends with `E`.
#[derive(Clone, Copy)]
pub(crate) enum List {
    // The generic arguments of a path.
    Arguments,
    // Those of the trait of a trait object, after which bindings of associated types may follow.
    TraitArguments,
    // The types of a tuple.
    Types,
    // The parameters of a function pointer.
    Parameters,
    // The traits of a trait object.
    Traits,
    // The elements of an array.
    Elements,
    // The values of a tuple.
    Values,
    // The values of a tuple struct.
    Fields,
    // The values of a struct, with the names of their fields.
    NamedFields,
}

// A production that is still to be read, text that is still to be written, or what is to be restored.
#[derive(Clone, Copy)]
pub(crate) enum Task {
    // A path. In a value, `::` is before its generic arguments.
    Path { in_value: bool },
    // The name in a namespace, after the path that contains it.
    Name { namespace: u8 },
    // The generic arguments of a path.
    Arguments { in_value: bool },
    // The generic arguments of the trait of a trait object.
    TraitArguments,
    // The type of an `impl`, and the trait if there is one.
    SelfType { has_trait: bool },
    // The trait of an `impl`.
    ImplTrait,
    // A generic argument.
    Argument,
    Type,
    // The length of an array.
    ArrayLength,
    // A trait of a trait object, with its bindings.
    Trait,
    // The path of such a trait.
    TraitPath,
    // The path of such a trait has no generic arguments that are still open.
    CloseArguments,
    // The bindings of associated types, after the path of the trait.
    FirstBinding,
    // The bindings after the first one.
    NextBinding,
    // The lifetime of a trait object, outside its binder.
    ObjectLifetime { lifetimes: u64 },
    // A constant. Outside a value, braces are around some.
    Constant { in_value: bool },
    // The fields of a struct or a variant, after its path.
    Variant,
    // A field and its value.
    Field,
    // The other items of a list, after `count` of them or, if that is 2, at least 2.
    Items { list: List, count: u8 },
    // A byte to write.
    Write(u8),
    // A position to continue at, after a back reference.
    Return { position: usize },
    // Whether texts were skipped before.
    Skip { is_skipping: bool },
    // The number of lifetimes that were bound before.
    Unbind { lifetimes: u64 },
}

impl List {
    // The text between two items.
    pub(crate) fn separator(self) -> &'static [u8] {
        match self {
            List::Traits => b" + ",
            _ => b", ",
        }
    }

    // The task that reads an item.
    pub(crate) fn item(self) -> Task {
        match self {
            List::Arguments | List::TraitArguments => Task::Argument,
            List::Types | List::Parameters => Task::Type,
            List::Traits => Task::Trait,
            List::NamedFields => Task::Field,
            List::Elements | List::Values | List::Fields => Task::Constant { in_value: true },
        }
    }
}
