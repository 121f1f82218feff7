use crate::names::names_of;
use crate::{LinkCode, link};
use class_asm::assemble;
use class_pool::{ClassFile, PoolEntry};
use jo_ids::{ClassId, List, Memory, MethodId, SiteId};
use jo_prog::lists::add;
use jo_prog::program::{Class, Operand, Program, TypeRef};
use jo_prog::sites::Site;
use jo_text::{Base, Name};
use std::alloc::Global;
use std::test::Fail;

/// A class of this name, with nothing in it.
fn class_named(alloc: Global, name: &str) -> Result<ClassFile, Memory> {
    let mut text = Name::new(alloc);
    text.append(name.as_bytes())?;
    let mut pool = List::new(alloc);
    add(&mut pool, PoolEntry::Utf8(text))?;
    add(&mut pool, PoolEntry::Class(1))?;
    Ok(ClassFile {
        minor: 0,
        major: 52,
        pool,
        flags: 0x0021,
        this_class: 2,
        super_class: 0,
        interfaces: List::new(alloc),
        fields: List::new(alloc),
        methods: List::new(alloc),
    })
}

#[test]
fn each_name_once(rt: HostRuntime) -> Result<(), Fail> {
    let classes = [
        class_named(rt.alloc(), "A")?,
        class_named(rt.alloc(), "p/B")?,
    ];
    let names = names_of(rt.alloc(), &classes)
        .ok()
        .ok_or("they have names")?;
    assert!(rt; names.has(b"A") && names.has(b"p/B"));
    assert!(rt; !names.has(b"B") && !names.has(b""));
    Ok(())
}

#[test]
fn a_name_twice(rt: HostRuntime) -> Result<(), Fail> {
    let classes = [
        class_named(rt.alloc(), "A")?,
        class_named(rt.alloc(), "B")?,
        class_named(rt.alloc(), "A")?,
    ];
    assert!(rt; names_of(rt.alloc(), &classes).is_err());
    Ok(())
}

/// The classes that these texts say.
fn classes_in(alloc: Global, texts: &[&str]) -> Result<Vec<ClassFile>, Fail> {
    let mut classes = Vec::new(alloc);
    for text in texts {
        let class = assemble(alloc, text.as_bytes())
            .ok()
            .ok_or("it is a class")?;
        classes.push(class)?;
    }
    Ok(classes)
}

fn linked(alloc: Global, texts: &[&str]) -> Result<Program, Fail> {
    let classes = classes_in(alloc, texts)?;
    Ok(link(alloc, classes).ok().ok_or("they link")?)
}

/// Two classes that name each other: B is above A, has a field of type A and an array of them.
const A: &str = "class A super B flags 0x0021
field count I flags 0x0018 value 7
field word Ljava/lang/String; flags 0x0018 value \"w\"
method main ([Ljava/lang/String;)V flags 0x0009 stack 3 locals 1
new A
astore_0
iconst_3
anewarray [LB;
checkcast [LA;
pop
aload_0
invokevirtual A.f()V
return
end
";

const B: &str = "class B super java/lang/Object flags 0x0021
field other LA; flags 0x0001
method f ()V flags 0x0001 stack 1 locals 1
return
end
";

#[test]
fn two_files_name_each_other(rt: HostRuntime) -> Result<(), Fail> {
    let program = linked(rt.alloc(), &[A, B])?;
    let [.., a, b] = program.classes.as_slice() else {
        return Err("two classes".into());
    };
    assert_eq!(rt; program.classes.as_slice().len(), 25);
    assert!(rt; a.name.as_slice() == b"A".as_slice() && b.name.as_slice() == b"B".as_slice());
    assert!(rt; a.superclass == Some(ClassId::of(24)) && b.superclass == Some(ClassId::of(0)));
    assert!(rt; program.find(b"A", b"main", b"([Ljava/lang/String;)V") == Some(MethodId::of(47)));
    assert!(rt; program.find(b"B", b"f", b"()V") == Some(MethodId::of(48)));
    assert!(rt;
        program.find(b"A", b"f", b"()V").is_none() && program.find(b"C", b"f", b"()V").is_none()
    );
    Ok(())
}

#[test]
fn fields_have_their_constants(rt: HostRuntime) -> Result<(), Fail> {
    let program = linked(rt.alloc(), &[A, B])?;
    let [.., count, word, other] = program.fields.as_slice() else {
        return Err("three fields".into());
    };
    assert_eq!(rt; program.fields.as_slice().len(), 5);
    assert!(rt; matches!(count.constant, Some(Operand::Int(7))));
    assert!(rt;
        matches!(&word.constant, Some(Operand::Text(text)) if text.as_slice() == b"w".as_slice())
    );
    assert!(rt; other.constant.is_none() && other.class == ClassId::of(24));
    Ok(())
}

/// How many operands are a member of that class, and how many an array of that class.
fn uses_of(class: &Class, owner: ClassId, name: &[u8]) -> (usize, usize) {
    let operands = class.operands.as_slice();
    let members = operands.iter().filter(
        |o| matches!(o, Operand::Member(m) if matches!(m.owner, TypeRef::Class(c) if c == owner)),
    );
    let arrays = operands.iter().filter(|o| is_array_of(o, name));
    (members.count(), arrays.count())
}

fn is_array_of(operand: &Operand, name: &[u8]) -> bool {
    match operand {
        Operand::OfType(TypeRef::Array(desc)) => {
            desc.dims == 1 && matches!(&desc.base, Base::Class(base) if base.as_slice() == name)
        }
        _ => false,
    }
}

#[test]
fn operands_have_their_types(rt: HostRuntime) -> Result<(), Fail> {
    let program = linked(rt.alloc(), &[A, B])?;
    let [.., a, b] = program.classes.as_slice() else {
        return Err("two classes".into());
    };
    assert_eq!(rt; uses_of(a, ClassId::of(23), b"A"), (1, 1));
    assert_eq!(rt; uses_of(a, ClassId::of(24), b"B"), (0, 1));
    assert_eq!(rt; uses_of(b, ClassId::of(24), b"B"), (0, 0));
    Ok(())
}

/// The sites of A.main, by pcs: new, anewarray, checkcast and invokevirtual.
fn sites_of_main() -> [Site; 7] {
    let method = MethodId::of(47);
    let raise = |pc, class| Site::Raise {
        method,
        pc,
        class: ClassId::of(class),
    };
    [
        Site::Alloc { method, pc: 0 },
        Site::Alloc { method, pc: 5 },
        raise(5, 13),
        raise(8, 10),
        Site::Call { method, pc: 13 },
        raise(13, 9),
        raise(13, 19),
    ]
}

#[test]
fn sites_stand_in_order(rt: HostRuntime) -> Result<(), Fail> {
    let program = linked(rt.alloc(), &[A, B])?;
    let sites = program.sites.as_slice();
    assert!(rt; sites.len() > 7 && sites.len() < 1000);
    assert!(rt; &sites[sites.len() - 7..] == sites_of_main().as_slice());
    let first = sites.len() as u32 - 7;
    let main = MethodId::of(47);
    assert!(rt; program.site_of(main, 0, None) == Some(SiteId::of(first)));
    assert!(rt; program.site_of(main, 5, Some(ClassId::of(13))) == Some(SiteId::of(first + 2)));
    assert!(rt; program.site_of(main, 13, Some(ClassId::of(19))) == Some(SiteId::of(first + 6)));
    assert!(rt;
        program.site_of(main, 8, None).is_none() && program.site_of(main, 1, None).is_none()
    );
    assert!(rt; program.site_of(MethodId::of(48), 0, None).is_none());
    Ok(())
}

/// The number of the fault that is told of these texts, and that of the class: zeros where they link.
fn told(alloc: Global, texts: &[&str]) -> Result<(u32, u32), Fail> {
    let classes = classes_in(alloc, texts)?;
    Ok(match link(alloc, classes) {
        Ok(_) => (0, 0),
        Err(fault) => (number_of(fault.code), fault.class.number()),
    })
}

fn number_of(code: LinkCode) -> u32 {
    match code {
        LinkCode::TwiceDefined => 1,
        LinkCode::MissingClass => 2,
        LinkCode::CyclicSuper => 3,
        LinkCode::MissingMember => 4,
        LinkCode::NotImplemented => 5,
        LinkCode::InterfaceBody => 6,
        LinkCode::StaticInit => 7,
        LinkCode::Memory => 8,
    }
}

const BOX: &str = "class Box super java/lang/Object flags 0x0021\n";

const THREAD: &str = "class java/lang/Thread super java/lang/Object flags 0x0021\n";

const TAKES_D: &str = "class C super java/lang/Object flags 0x0021
method m (LD;)V flags 0x0009 stack 0 locals 1
return
end
";

const NATIVE_WITH_D: &str = "class C super java/lang/Object flags 0x0021
method m (LD;)V flags 0x0109
";

const E: &str = "class E super F flags 0x0021\n";

const F: &str = "class F super E flags 0x0021\n";

const BOX_INTERFACE: &str = "class I super Box flags 0x0600\n";

const CALLS_NONE: &str = "class G super java/lang/Object flags 0x0021
method m ()V flags 0x0009 stack 0 locals 0
invokestatic G.n()V
return
end
";

const ABSTRACT: &str = "class H super java/lang/Object flags 0x0421
method m ()V flags 0x0401
";

const BELOW_ABSTRACT: &str = "class K super H flags 0x0021\n";

const WITH_BODY: &str = "class J super java/lang/Object flags 0x0600
method m ()V flags 0x0001 stack 0 locals 1
return
end
";

const WITH_INIT: &str = "class N super java/lang/Object flags 0x0021
method <clinit> ()V flags 0x0008 stack 0 locals 0
return
end
";

#[test]
fn the_first_fault_is_told(rt: HostRuntime) -> Result<(), Fail> {
    assert_eq!(rt; told(rt.alloc(), &[A, B])?, (0, 0));
    assert_eq!(rt; told(rt.alloc(), &[BOX, BOX])?, (1, 24));
    assert_eq!(rt; told(rt.alloc(), &[THREAD])?, (1, 23));
    assert_eq!(rt; told(rt.alloc(), &[TAKES_D])?, (2, 23));
    assert_eq!(rt; told(rt.alloc(), &[NATIVE_WITH_D])?, (0, 0));
    assert_eq!(rt; told(rt.alloc(), &[BOX, E, F])?, (3, 24));
    assert_eq!(rt; told(rt.alloc(), &[BOX, BOX_INTERFACE])?, (3, 24));
    assert_eq!(rt; told(rt.alloc(), &[CALLS_NONE])?, (4, 23));
    assert_eq!(rt; told(rt.alloc(), &[ABSTRACT, BELOW_ABSTRACT])?, (5, 24));
    assert_eq!(rt; told(rt.alloc(), &[WITH_BODY])?, (6, 23));
    assert_eq!(rt; told(rt.alloc(), &[WITH_INIT])?, (7, 23));
    Ok(())
}

#[test]
fn kinds_of_faults_have_their_order(rt: HostRuntime) -> Result<(), Fail> {
    assert_eq!(rt; told(rt.alloc(), &[WITH_INIT, WITH_BODY])?, (6, 24));
    assert_eq!(rt;
        told(rt.alloc(), &[WITH_BODY, ABSTRACT, BELOW_ABSTRACT])?,
        (5, 25)
    );
    assert_eq!(rt; told(rt.alloc(), &[CALLS_NONE, E, F])?, (3, 24));
    assert_eq!(rt; told(rt.alloc(), &[A, BOX, BOX])?, (1, 25));
    Ok(())
}
