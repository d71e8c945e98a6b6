// Names, keys and stores by small examples.
#![tactic(auto)]

#[cfg(test)]
mod tests {
    use chained_store::Chained;
    use flat_store::Flat;
    use keys::{ActivationKey, Key, NameKind, RuleKey};
    use names::Name;
    use std::cmp::Ordering;
    use std::process::Abort;
    use std::test::Fail;
    use store_clients::{count, remove_bearer};
    use stores::{Row, Store, StoreFull};

    fn name(octets: &[u8]) -> Result<Name, Fail> {
        Name::new(octets).ok_or_else(|| Fail::new("no name"))
    }

    fn compared(a: &[u8], b: &[u8]) -> Result<Ordering, Fail> {
        Ok(name(a)?.compare(&name(b)?))
    }

    #[test]
    fn names_have_1_to_32_octets(rt: HostRuntime) -> Result<(), Fail> {
        assert!(rt; Name::new(b"").is_none());
        assert!(rt; Name::new(&[0; 33]).is_none());
        assert!(rt; name(&[0; 32])?.octets() == [0; 32].as_slice());
        assert!(rt; name(b"\x00")?.octets() == b"\x00".as_slice());
        assert!(rt; name(b"\x00")? != name(b"\x00\x00")?);
        Ok(())
    }

    #[test]
    fn names_are_ordered_octet_by_octet(rt: HostRuntime) -> Result<(), Fail> {
        assert!(rt; matches!(compared(b"a", b"b")?, Ordering::Less));
        assert!(rt; matches!(compared(b"b", b"abc")?, Ordering::Greater));
        assert!(rt; matches!(compared(b"ab", b"abc")?, Ordering::Less));
        assert!(rt; matches!(compared(b"a\x00", b"a")?, Ordering::Greater));
        assert!(rt; matches!(compared(b"\x7f", b"\x80")?, Ordering::Less));
        assert!(rt; matches!(compared(b"rule", b"rule")?, Ordering::Equal));
        Ok(())
    }

    #[test]
    fn keys_are_alike_in_all_parts(rt: HostRuntime) -> Result<(), Fail> {
        let web = ActivationKey {
            bearer: 3,
            kind: NameKind::Rule,
            name: name(b"web")?,
        };
        assert!(rt; web.is_like(&web));
        assert!(rt; !web.is_like(&ActivationKey { bearer: 4, ..web }));
        assert!(rt;
            !web.is_like(&ActivationKey {
                kind: NameKind::Group,
                ..web
            })
        );
        assert!(rt;
            !web.is_like(&ActivationKey {
                name: name(b"webs")?,
                ..web
            })
        );
        Ok(())
    }

    fn rule(bearer: u8, octets: &[u8]) -> Result<RuleKey, Fail> {
        Ok(RuleKey {
            bearer,
            name: name(octets)?,
        })
    }

    // A store with room for two keys, up to full and beyond.
    fn run<S: Store<Key = RuleKey, Record = u32>>(
        rt: &impl Abort,
        store: &mut S,
    ) -> Result<(), Fail> {
        let (a, b, c) = (rule(1, b"a")?, rule(2, b"a")?, rule(1, b"c")?);
        let mut place = 7;
        assert!(rt; store.room() == 2);
        assert!(rt; !store.find(&a, &mut place) && place == 7);
        assert!(rt; store.put(a, 5).is_ok() && store.put(b, 6).is_ok());
        assert!(rt; store.put(c, 8) == Err(StoreFull));
        assert!(rt; !store.find(&c, &mut place) && place == 7);
        assert!(rt; store.put(a, 0).is_ok());
        assert!(rt; store.find(&a, &mut place) && place == 0);
        assert!(rt; store.remove(&b) && !store.remove(&b));
        assert!(rt; store.put(c, 8).is_ok());
        assert!(rt; count(store, a) == 2);
        remove_bearer(store, 1, a);
        assert!(rt; count(store, a) == 0);
        Ok(())
    }

    #[test]
    fn flat_rows_are_filled_and_used_again(rt: HostRuntime) -> Result<(), Fail> {
        let mut rows = [Row {
            key: rule(0, b"x")?,
            value: 9,
        }; 2];
        run(&rt, &mut Flat::over(&mut rows))
    }

    #[test]
    fn chained_rows_are_filled_and_used_again(rt: HostRuntime) -> Result<(), Fail> {
        let mut rows = [Row {
            key: rule(0, b"x")?,
            value: 9,
        }; 2];
        let mut links = [9; 3];
        let mut store = Chained::over(&mut rows, &mut links).ok_or_else(|| Fail::new("no bucket"))?;
        run(&rt, &mut store)
    }

    #[test]
    fn chained_rows_want_a_bucket(rt: HostRuntime) -> Result<(), Fail> {
        let mut rows = [Row {
            key: rule(0, b"x")?,
            value: 9,
        }; 2];
        let mut links = [0; 2];
        assert!(rt; Chained::over(&mut rows, &mut links).is_none());
        Ok(())
    }
}
