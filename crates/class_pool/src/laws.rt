//! Laws of the grammar of class files.
ghost use Rattle.std.specs.Prelude.{◌≡◌, ◌↔◌, ◌⊎◌, ◌<◌, ◌^◌, ℕ, List, length, drop, Ok, Err};
ghost use Rattle.std.specs.List.{AllByRecursion};
ghost use Rattle.class_pool.specs.ClassOrder.{class_of, read_field, read_code, read_method};
ghost use Rattle.class_pool.specs.ClassGrammar.{IsClass};
ghost use Rattle.class_pool.specs.Pool.{pool_of};
ghost use Rattle.class_pool.specs.FirstFaultPool.{PoolStops};
ghost use Rattle.class_pool.specs.Fitting.{FitsClass};
ghost use Rattle.class_pool.specs.FirstFaultParts.{FieldStops, CodeStops, MethodStops};
ghost use Rattle.class_pool.specs.FirstFault.{FirstFault};
ghost use Rattle.class_pool.specs.declared.entries.PoolEntry.{PoolEntry};
ghost use Rattle.class_pool.specs.declared.classes.ClassFile.{ClassFile};
ghost use Rattle.class_pool.specs.declared.faults.ClassFault.{ClassFault};

/// Reading in order gives the class that the grammar relates to the bytes, and no other.
pub fn reading_is_the_grammar()
    ensures { (file : List ℕ) (class : ClassFile) → AllByRecursion (λ byte. byte < 2 ^ 8) file → (class_of file ≡ Ok class) ↔ IsClass file class }
{}

/// Bytes are those of at most one class.
pub fn one_class()
    ensures { (file : List ℕ) (one other : ClassFile) → IsClass file one → IsClass file other → one ≡ other }
{}

/// The first fault of the pool of a file, which begins at byte 8, is that of its items in order.
pub fn pool_fault_is_by_items()
    ensures { (file : List ℕ) (f : ClassFault) → AllByRecursion (λ byte. byte < 2 ^ 8) file → (pool_of file ≡ Err f) ↔ PoolStops (length file) (drop 8 file) f }
{}

/// What is read as a class can be written.
pub fn what_is_read_fits()
    ensures { (bytes : List ℕ) (c : ClassFile) → IsClass bytes c → FitsClass c }
{}

/// The first fault of the field that begins there, where the pool is this one, is that of its items in order.
pub fn field_fault_is_by_items()
    ensures { (size : ℕ) (pool : List PoolEntry) (rest : List ℕ) (f : ClassFault) → AllByRecursion (λ byte. byte < 2 ^ 8) rest → (read_field size pool rest ≡ Err f) ↔ FieldStops size pool rest f }
{}

/// The first fault of the attribute Code that begins there behind its length, which stands at `place`, is that of its items in
/// order.
pub fn code_fault_is_by_items()
    ensures { (size : ℕ) (pool : List PoolEntry) (place count : ℕ) (rest : List ℕ) (f : ClassFault) → AllByRecursion (λ byte. byte < 2 ^ 8) rest → (read_code size pool place count rest ≡ Err f) ↔ CodeStops size pool place count rest f }
{}

/// The first fault of the method that begins there, where the pool is this one, is that of its items in order.
pub fn method_fault_is_by_items()
    ensures { (size : ℕ) (pool : List PoolEntry) (rest : List ℕ) (f : ClassFault) → AllByRecursion (λ byte. byte < 2 ^ 8) rest → (read_method size pool rest ≡ Err f) ↔ MethodStops size pool rest f }
{}

/// Reading in order stops with the first fault of the file by its items, and with no other.
pub fn first_fault_is_by_items()
    ensures { (file : List ℕ) (f : ClassFault) → AllByRecursion (λ byte. byte < 2 ^ 8) file → (class_of file ≡ Err f) ↔ FirstFault file f }
{}

/// Bytes are those of a class or have a first fault, and not both; and they have at most one first fault.
pub fn class_or_first_fault()
    ensures either { (file : List ℕ) → AllByRecursion (λ byte. byte < 2 ^ 8) file → ((class : ClassFile) × IsClass file class) ⊎ ((f : ClassFault) × FirstFault file f) }
    ensures not_both { (file : List ℕ) → AllByRecursion (λ byte. byte < 2 ^ 8) file → (class : ClassFile) (f : ClassFault) → IsClass file class → FirstFault file f → ⊥ }
    ensures one { (file : List ℕ) → AllByRecursion (λ byte. byte < 2 ^ 8) file → (f g : ClassFault) → FirstFault file f → FirstFault file g → f ≡ g }
{}
