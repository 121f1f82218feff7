//! The classes of a program, with numbers in the place of names.

ghost use Rattle.std.specs.Prelude.{◌≡◌};
ghost use Rattle.jo_prog.specs.Sites.{sites_of};

pub(crate) use crate::lookups::{callee_of, first_with, operation_in};
pub use crate::lookups::{callee_at, class_at, code_at, method_at, operation_at};
use crate::lookups::{class_named, has_numbers};
use crate::sites::{Site, site_of, sites_of};
use jo_ids::{ClassId, FieldId, List, Memory, MethodId, SiteId};
use jo_text::{FieldDesc, Name};
use std::alloc::{AllocError, Global};

/// The classes in order, the prelude's first, all their fields and methods, and the sites of the methods.
#[derive(Drop)]
pub struct Program {
    pub classes: List<Class>,
    pub fields: List<Field>,
    pub methods: List<Method>,
    pub sites: List<Site>,
    pub ghost sites_are: { sites ≡ sites_of methods },
}

/// A class or interface. Its operands stand at their pool index.
#[derive(Drop)]
pub struct Class {
    pub name: Name,
    pub flags: u16,
    pub superclass: Option<ClassId>,
    pub interfaces: List<ClassId>,
    pub fields: List<FieldId>,
    pub methods: List<MethodId>,
    pub operands: List<Operand>,
}

#[derive(Drop)]
pub struct Field {
    pub class: ClassId,
    pub name: Name,
    pub desc: Name,
    pub flags: u16,
    pub constant: Option<Operand>,
}

#[derive(Drop)]
pub struct Method {
    pub class: ClassId,
    pub name: Name,
    pub desc: Name,
    pub flags: u16,
    pub code: Option<Code>,
}

#[derive(Drop)]
pub struct Code {
    pub max_stack: u16,
    pub max_locals: u16,
    pub bytes: Name,
    pub rows: List<Row>,
}

/// A row of the exception table. `catches` is `None` where it catches every exception.
#[derive(Drop)]
pub struct Row {
    pub start: u16,
    pub end: u16,
    pub handler: u16,
    pub catches: Option<TypeRef>,
}

#[derive(Drop)]
pub enum TypeRef {
    Class(ClassId),
    Array(FieldDesc),
}

#[derive(Drop)]
pub struct MemberRef {
    pub owner: TypeRef,
    pub name: Name,
    pub desc: Name,
}

/// What an instruction names by a pool index.
#[derive(Drop)]
pub enum Operand {
    Unused,
    Int(i32),
    Text(Name),
    OfType(TypeRef),
    Member(MemberRef),
}

impl Program {
    ghost use Rattle.std.specs.Prelude.{◌<◌, ◌^◌, length, IfOk, Some, slice_get};
    ghost use Rattle.jo_prog.specs.Program.{program_with, HasNumbers, find as method_named};
    ghost use Rattle.jo_prog.specs.Sites.{site_of as number_of};

    /// The program with these parts. Where there are 2^32 of one kind or more, memory is said to be wanting.
    pub fn build(
        alloc: Global,
        classes: List<Class>,
        fields: List<Field>,
        methods: List<Method>,
    ) -> Result<Program, Memory>
        ensures program { IfOk result (λ program. program ≡ program_with classes fields methods) }
        ensures numbers { IfOk result HasNumbers }
    {
        let sites = sites_of(alloc, methods.as_slice())?;
        if has_numbers(classes.as_slice().len())
            && has_numbers(fields.as_slice().len())
            && has_numbers(methods.as_slice().len())
            && has_numbers(sites.as_slice().len())
        {
            Ok(Program {
                classes,
                fields,
                methods,
                sites,
            })
        } else {
            Err(AllocError)
        }
    }

    /// How many classes there are.
    pub fn classes(&self) -> u32
        requires { length self.now.classes < 2 ^ 32 }
        ensures { result ≡ length self.now.classes }
    {
        self.classes.as_slice().len() as u32
    }

    /// How many fields there are.
    pub fn fields(&self) -> u32
        requires { length self.now.fields < 2 ^ 32 }
        ensures { result ≡ length self.now.fields }
    {
        self.fields.as_slice().len() as u32
    }

    /// How many methods there are.
    pub fn methods(&self) -> u32
        requires { length self.now.methods < 2 ^ 32 }
        ensures { result ≡ length self.now.methods }
    {
        self.methods.as_slice().len() as u32
    }

    /// How many sites there are.
    pub fn sites(&self) -> u32
        requires { length self.now.sites < 2 ^ 32 }
        ensures { result ≡ length self.now.sites }
    {
        self.sites.as_slice().len() as u32
    }

    pub fn class(&self, id: ClassId) -> &Class
        requires { id < length self.now.classes }
        ensures { slice_get self.now.classes id ≡ Some result.now }
    {
        &self.classes.as_slice()[id.number() as usize]
    }

    pub fn field(&self, id: FieldId) -> &Field
        requires { id < length self.now.fields }
        ensures { slice_get self.now.fields id ≡ Some result.now }
    {
        &self.fields.as_slice()[id.number() as usize]
    }

    pub fn method(&self, id: MethodId) -> &Method
        requires { id < length self.now.methods }
        ensures { slice_get self.now.methods id ≡ Some result.now }
    {
        &self.methods.as_slice()[id.number() as usize]
    }

    pub fn site(&self, id: SiteId) -> Site
        requires { id < length self.now.sites }
        ensures { slice_get self.now.sites id ≡ Some result }
    {
        self.sites.as_slice()[id.number() as usize]
    }

    /// The first method with that name and descriptor of the first class with that name.
    pub fn find(&self, class: &[u8], name: &[u8], desc: &[u8]) -> Option<MethodId>
        ensures { result ≡ method_named self.now class.now name.now desc.now }
    {
        let place = class_named(self, class)?;
        let class = self.classes.as_slice().get(place)?;
        first_with(self, name, desc, class.methods.as_slice())
    }

    /// The number of the allocation or call at that pc of a method, or of the exception of that class there. None where there is
    /// none.
    pub fn site_of(&self, method: MethodId, pc: u32, raised: Option<ClassId>) -> Option<SiteId>
        requires { length self.now.sites < 2 ^ 32 }
        ensures { result ≡ number_of self.now.sites method pc raised }
    {
        site_of(self.sites.as_slice(), method, pc, raised)
    }
}
