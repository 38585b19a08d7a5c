// Who knows the names that a printed value needs.
ghost use Rattle.std.specs.Prelude.{◌≡◌, List, option_map};
ghost use Rattle.std.specs.Option.{option_copied};
ghost use Rattle.vt_base.specs.Names.{EnumNames, ObjectName, literal_numbers, literal_names, object_name};

use crate::{ObjId, Text};

/// What knows names of enums, of their literals and of objects, as a metamodel or a store does.
pub trait Names {
    /// The enums, by their numbers.
    ghost enums: { Self → List EnumNames };

    /// The objects that have a name.
    ghost objects: { Self → List ObjectName };

    /// The numbers of the first enum of this name and of its first literal of that name.
    fn literal_named(&self, enum_name: &str, literal: &str) -> Option<(u16, u16)>
        ensures { result ≡ literal_numbers (enums self.now) enum_name.now literal.now };

    /// The name of an enum, and of a literal of it.
    fn literal_text(&self, e: u16, l: u16) -> Option<(&Text, &Text)>
        ensures { option_map (λ names. (names.0.now, names.1.now)) result
            ≡ literal_names (enums self.now) e l };

    /// The name of an object.
    fn object_text(&self, o: ObjId) -> Option<&Text>
        ensures { option_copied result ≡ object_name (objects self.now) o };
}
