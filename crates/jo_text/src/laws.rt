//! Laws of the grammars.
ghost use Rattle.std.specs.Prelude.{◌≡◌, ◌<◌, ◌^◌, ◌↔◌, ℕ, ℤ, List, true};
ghost use Rattle.std.specs.List.{AllByRecursion};
ghost use Rattle.jo_text.specs.Descriptors.{SpellsField, SpellsMethod, IsFieldDesc, IsMethodDesc, IsMemberName, IsClassName, IsClassOrArray};
ghost use Rattle.jo_text.specs.Escapes.{escaped, quoted};
ghost use Rattle.jo_text.specs.Mutf8.{IsMutf8};
ghost use Rattle.jo_text.specs.Numbers.{IsNumber};
ghost use Rattle.jo_text.specs.Tests.{is_field_desc, is_method_desc, is_member_name, is_class_name, is_class_or_array, is_mutf8};
ghost use Rattle.jo_text.specs.declared.descriptors.FieldDesc.{FieldDesc};
ghost use Rattle.jo_text.specs.declared.descriptors.MethodDesc.{MethodDesc};

/// Bytes are those of at most one field descriptor.
pub fn one_field_desc()
    ensures { (bytes : List ℕ) (one other : FieldDesc) → SpellsField one bytes → SpellsField other bytes → one ≡ other }
{}

/// Bytes are those of at most one method descriptor.
pub fn one_method_desc()
    ensures { (bytes : List ℕ) (one other : MethodDesc) → SpellsMethod one bytes → SpellsMethod other bytes → one ≡ other }
{}

/// A text is the spelling of at most one name.
pub fn one_name()
    ensures { (one other : List ℕ) → AllByRecursion (λ byte. byte < 2 ^ 8) one → AllByRecursion (λ byte. byte < 2 ^ 8) other → escaped one ≡ escaped other → one ≡ other }
{}

/// A quoted text is that of at most one text of bytes.
pub fn one_quoted()
    ensures { (one other : List ℕ) → AllByRecursion (λ byte. byte < 2 ^ 8) one → AllByRecursion (λ byte. byte < 2 ^ 8) other → quoted one ≡ quoted other → one ≡ other }
{}

/// A text is the spelling of at most one number.
pub fn one_number()
    ensures { (text : List ℕ) (one other : ℤ) → IsNumber text one → IsNumber text other → one ≡ other }
{}

/// Each test is true exactly by its grammar.
pub fn tests()
    ensures field { (bytes : List ℕ) → (is_field_desc bytes ≡ true) ↔ IsFieldDesc bytes }
    ensures method { (bytes : List ℕ) → (is_method_desc bytes ≡ true) ↔ IsMethodDesc bytes }
    ensures member { (name : List ℕ) → (is_member_name name ≡ true) ↔ IsMemberName name }
    ensures class { (name : List ℕ) → (is_class_name name ≡ true) ↔ IsClassName name }
    ensures class_or_array { (name : List ℕ) → (is_class_or_array name ≡ true) ↔ IsClassOrArray name }
    ensures mutf8 { (bytes : List ℕ) → (is_mutf8 bytes ≡ true) ↔ IsMutf8 bytes }
{}
