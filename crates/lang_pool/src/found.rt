/// What `Pool::get` answers: the pool's value, or one that was made for the caller alone.
#[derive(Drop)]
pub enum PoolValue<'a, V> {
    Shared(&'a V),
    Owned(Box<V>),
}

impl<V> PoolValue<'_, V> {
    ghost use Rattle.std.specs.Prelude.{◌≡◌};
    ghost use Rattle.lang_pool.specs.Found.{found_value};

    /// The value, whoever owns it.
    pub fn value(&self) -> &V
        ensures { result.now ≡ found_value self.now }
    {
        match self {
            PoolValue::Shared(value) => value,
            PoolValue::Owned(value) => value,
        }
    }
}
