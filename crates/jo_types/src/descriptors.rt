//! What descriptors name (JVM Specification SE 8, 4.3.2 and 4.3.3).
ghost use Rattle.std.specs.Prelude.{◌≡◌, IfOk};
ghost use Rattle.jo_prog.specs.MethodTypes.{field_desc_in, method_desc_in};

use jo_ids::Memory;
use jo_text::{DescFault, FieldDesc, MethodDesc, read_field_desc, read_method_desc};
use std::alloc::{AllocError, Global};

/// The type that a field's descriptor names, and `None` where the bytes are none.
pub fn field_type(alloc: Global, bytes: &[u8]) -> Result<Option<FieldDesc>, Memory>
    ensures { IfOk result (λ found. found ≡ field_desc_in bytes.now) }
{
    match read_field_desc(alloc, bytes) {
        Ok(desc) => Ok(Some(desc)),
        Err(DescFault::Bad) => Ok(None),
        Err(DescFault::Memory) => Err(AllocError),
    }
}

/// The types that a method's descriptor names, and `None` where the bytes are none.
pub fn method_type(alloc: Global, bytes: &[u8]) -> Result<Option<MethodDesc>, Memory>
    ensures { IfOk result (λ found. found ≡ method_desc_in bytes.now) }
{
    match read_method_desc(alloc, bytes) {
        Ok(desc) => Ok(Some(desc)),
        Err(DescFault::Bad) => Ok(None),
        Err(DescFault::Memory) => Err(AllocError),
    }
}
