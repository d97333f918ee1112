// A setting of a sheet.

#[derive(Clone, Copy)]
pub struct Setting<K, V> {
    pub key: K,
    pub value: V,
}
