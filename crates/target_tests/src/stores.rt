// The stores: the blocks that they compare, the counts of their calls on small maps, the sizes of
// their pools, and the table that they stand on.
mod compare;
mod counts;
mod disk;
mod pool_size;
mod table;
